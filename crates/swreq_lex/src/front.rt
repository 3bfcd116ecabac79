//! What stands at the front of a text.

ghost use Rattle.std.specs.{Prelude.{◌≡◌, ◌≤◌, length}, Str.{chars}};
ghost use Rattle.swreq_lex.specs.{Reader.{after_slash, front}, Seen.{seen, IsWithin}};

use crate::characters::{first, is_white_space};
use crate::comments::{past_comment, past_line};
use crate::marks::mark_of;
use crate::words::{past_word, starts_word};

/// What stands at the front of a text, and what is left after it.
#[derive(Clone, Copy)]
pub enum Front<'a> {
    Nothing,
    Gap(&'a str),
    Word(&'a str),
    Mark(u32, &'a str),
    BadCharacter,
    OpenComment,
}

/// What stands at the front of a text, after the `/` there.
#[tactic(auto, unfolding(crate::specs::Reader::after_slash))]
fn after_slash(text: &str) -> Front<'_>
    ensures seen { seen result ≡ after_slash (chars text.now) }
    ensures len { IsWithin result (length text.now) }
{
    match first(text) {
        Some((c, rest)) if c == '/' => Front::Gap(past_line(rest)),
        Some((c, rest)) if c == '*' => match past_comment(rest) {
            Some(rest) => Front::Gap(rest),
            None => Front::OpenComment,
        },
        _ => Front::BadCharacter,
    }
}

/// What stands at the front of a text.
#[tactic(auto, unfolding(crate::specs::Reader::front))]
pub fn front_of(text: &str) -> Front<'_>
    ensures seen { seen result ≡ front (chars text.now) }
    ensures len { IsWithin result (length text.now) }
{
    let Some((c, rest)) = first(text) else {
        return Front::Nothing;
    };
    if is_white_space(c) {
        return Front::Gap(rest);
    }
    if starts_word(c) {
        return Front::Word(past_word(rest));
    }
    if c == '/' {
        return after_slash(rest);
    }
    match mark_of(text) {
        Some((n, rest)) => Front::Mark(n, rest),
        None => Front::BadCharacter,
    }
}
