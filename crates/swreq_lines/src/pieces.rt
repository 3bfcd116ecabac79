//! Texts in pieces.

ghost use Rattle.std.specs.Prelude.{◌≡◌, ◌⊎◌, ◌==◌, ◌≤◌, ◌-◌, ◌++◌, ◌∷◌, [], length, position};
ghost use Rattle.swreq_print.specs.Names.{Text};
ghost use Rattle.swreq_lines.specs.Pieces.{Ends, IsWithout, behind};

/// The first place of a byte in a text.
fn find(text: &[u8], byte: u8) -> Option<usize>
    ensures { result ≡ position (λ c. c == byte) text.now }
{
    text.iter().position(|c| *c == byte)
}

/// A piece of a text, and what follows the byte that ends it.
#[derive(Clone, Copy)]
pub(crate) struct Piece<'a> {
    pub piece: &'a [u8],
    pub rest: &'a [u8],
}

/// The text up to the first such byte, or the whole text where it has none.
pub(crate) fn next_piece(text: &[u8], byte: u8) -> Piece<'_>
    ensures without { IsWithout byte result.piece.now }
    ensures whole { (text.now ≡ result.piece.now ++ (byte ∷ result.rest.now))
        ⊎ ((text.now ≡ result.piece.now) × (result.rest.now ≡ [])) }
    ensures shorter { length result.rest.now ≤ length text.now - 1 }
    ensures piece { (piece tail : Text) → IsWithout byte piece → Ends byte tail
        → text.now ≡ piece ++ tail
        → (result.piece.now ≡ piece) × (result.rest.now ≡ behind tail) }
{
    match find(text, byte) {
        None => Piece {
            piece: text,
            rest: &[],
        },
        Some(at) => Piece {
            piece: &text[..at],
            rest: &text[at + 1..],
        },
    }
}

/// The text up to the first space.
pub(crate) fn next_word(text: &[u8]) -> Piece<'_>
    ensures shorter { length result.rest.now ≤ length text.now - 1 }
    ensures piece { (word tail : Text) → IsWithout 32 word → Ends 32 tail → text.now ≡ word ++ tail
        → (result.piece.now ≡ word) × (result.rest.now ≡ behind tail) }
{
    next_piece(text, b' ')
}
