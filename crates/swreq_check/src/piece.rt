//! A piece of what is printed.
ghost use Rattle.std.specs.Prelude.{◌≡◌, ◌<◌, length};
ghost use Rattle.swreq_check.specs.Made.{text_at, verdict_at};

use swreq_query::Verdict;
use swreq_text::Seq;

/// A piece of what is printed.
#[derive(Drop)]
pub struct Piece {
    pub text: Seq<u8>,
    /// The verdict on the query that it answers, or None where that has none, or where it answers no query.
    pub verdict: Option<Verdict>,
}

/// The text of the piece at this place, or no bytes where there is no piece.
pub fn text_at<'a>(pieces: &'a [Option<Piece>], k: usize) -> &'a [u8]
    requires { k < length pieces.now }
    ensures { result.now ≡ text_at pieces.now k }
{
    match &pieces[k] {
        Some(piece) => piece.text.items(),
        None => &[],
    }
}

/// The verdict of the piece at this place, or None where there is no piece.
pub fn verdict_at(pieces: &[Option<Piece>], k: usize) -> Option<Verdict>
    requires { k < length pieces.now }
    ensures { result ≡ verdict_at pieces.now k }
{
    match &pieces[k] {
        Some(piece) => piece.verdict,
        None => None,
    }
}
