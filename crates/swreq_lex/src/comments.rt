//! The ends of comments.

ghost use Rattle.std.specs.{Prelude.{◌≡◌, ◌≤◌, length, MatchOption, IfSome, Some, None}, Str.{chars}};
ghost use Rattle.swreq_lex.specs.{Characters.{continues_line}, Reader.{forgotten, past, past_comment}};

use crate::characters::first;

/// Stands for a character that has opened or closed a comment, so that it does so once.
const FORGOTTEN: char = ' ';

/// What is left after the longest run of characters before a line end.
#[tactic(auto, unfolding(crate::specs::Reader::past))]
pub fn past_line(text: &str) -> &str
    ensures chars { chars result.now ≡ past continues_line (chars text.now) }
    ensures len { length result.now ≤ length text.now }
{
    let mut rest = text;
    while let Some((c, after)) = first(rest) {
        if c == '\n' || c == '\r' {
            return rest;
        }
        rest = after;
    }
    rest
}

/// What is left after the end of a comment, from inside it, or `None` where it is never closed.
#[tactic(auto, unfolding(crate::specs::Reader::past_comment))]
pub fn past_comment(text: &str) -> Option<&str>
    ensures chars { MatchOption result (past_comment 0 forgotten (chars text.now) ≡ None)
        (λ x. past_comment 0 forgotten (chars text.now) ≡ Some (chars x.now)) }
    ensures len { IfSome result (λ x. length x.now ≤ length text.now) }
{
    let mut rest = text;
    let mut depth = 0usize;
    let mut before = FORGOTTEN;
    while let Some((c, after)) = first(rest) {
        rest = after;
        match (before, c) {
            ('/', '*') => {
                depth += 1;
                before = FORGOTTEN;
            }
            ('*', '/') => {
                if depth == 0 {
                    return Some(rest);
                }
                depth -= 1;
                before = FORGOTTEN;
            }
            _ => before = c,
        }
    }
    None
}
