// An input in two parts.
ghost use Rattle.std.specs.Prelude.{◌≡◌, ◌++◌, ◌∷◌, Contains, IfSome, MatchOption};
ghost use Rattle.swreq_text.specs.{Lines.{lines}, Divided.{Divides, divider}};

use crate::line::first_line;

/// The line that divides an input.
const DIVIDER: &[u8] = b"%%";

/// An input in two parts.
#[derive(Clone, Copy)]
pub struct TwoParts<'a> {
    /// What stands before the line `%%`.
    pub first: &'a [u8],
    /// What stands after it.
    pub second: &'a [u8],
}

/// The two parts of an input, which is divided at its first line that is exactly `%%`, or None if and only if it has no such line.
pub fn parts(input: &[u8]) -> Option<TwoParts<'_>>
    ensures parts { MatchOption result
        (Contains (lines input.now) divider → ⊥)
        (λ p. Divides input.now p.first.now p.second.now) }
    ensures lines { IfSome result
        (λ p. lines input.now ≡ lines p.first.now ++ (divider ∷ lines p.second.now)) }
{
    let mut at = 0;
    while let Some(found) = first_line(&input[at..]) {
        if found.line == DIVIDER {
            return Some(TwoParts {
                first: &input[..at],
                second: found.rest,
            });
        }
        at = input.len() - found.rest.len();
    }
    None
}
