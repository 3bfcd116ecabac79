//! The test of the form.

ghost use Rattle.std.specs.Prelude.{◌≡◌, map, string_bytes};
ghost use Rattle.swreq_words.specs.Reading.{are_parts, has_form};

use crate::command::{Command, Follows};
use crate::seen::Seen;

fn are_parts(may: Follows, words: &[String]) -> bool
    ensures { result ≡ are_parts may (map string_bytes words.now) }
{
    let mut seen = Seen::nothing();
    for word in words {
        match seen.with_next(may, word.as_str()) {
            Some(next) => seen = next,
            None => return false,
        }
    }
    seen.is_done(may)
}

/// Whether the words have the form.
pub(crate) fn has_form(words: &[String]) -> bool
    ensures { result ≡ has_form (map string_bytes words.now) }
{
    match words {
        [] => false,
        [first, rest @ ..] => match Command::of(first.as_str()) {
            Some(command) => are_parts(command.follows(), rest),
            None => false,
        },
    }
}
