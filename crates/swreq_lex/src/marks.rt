//! The marks.

ghost use Rattle.std.specs.{Prelude.{◌≡◌, ◌≤◌, ◌<◌, length, position, nat_eq, IsTrue, IfSome}, Str.{chars}, List.{starts_with}};
ghost use Rattle.swreq_lex.specs.{Marks.{spellings}, Reader.{are_ascii, texts}, Seen.{FindsMark}};

/// The marks, those of the grammar first. A [`TokenKind::Mark`](crate::TokenKind::Mark) has the place
/// of its mark among them. None begins with one before it, so the first one that a text begins with is the longest.
pub const MARKS: [&str; 21] = [
    "{", "}", "(", ")", "<", ">", ",", ":", ";", ".", "&", "==", "[", "]", "@", "`", "~", "?", "!",
    "=", "->",
];

/// The place of the first of the marks that the text begins with.
fn place_of(marks: &[&str], text: &str) -> Option<usize>
    ensures { result ≡ position (λ mark. starts_with nat_eq text.now mark.now) marks.now }
{
    marks
        .iter()
        .position(|mark| text.as_bytes().starts_with(mark.as_bytes()))
}

/// The place of the first of the marks that the text begins with, and what is left after it.
fn first_of<'a>(marks: &[&str], text: &'a str) -> Option<(usize, &'a str)>
    requires { IsTrue (are_ascii (texts marks.now)) }
    ensures chars { FindsMark (texts marks.now) (chars text.now) result }
    ensures place { IfSome result (λ x. x.0 < length marks.now) }
    ensures len { IfSome result (λ x. length x.1.now ≤ length text.now) }
{
    let n = place_of(marks, text)?;
    let mark = marks[n];
    Some((n, &text[mark.len()..]))
}

/// The place of the mark that the text begins with, and what is left after it.
pub fn mark_of(text: &str) -> Option<(u32, &str)>
    ensures chars { FindsMark spellings (chars text.now) result }
    ensures len { IfSome result (λ x. length x.1.now ≤ length text.now) }
{
    let (n, rest) = first_of(&MARKS, text)?;
    Some((n as u32, rest))
}
