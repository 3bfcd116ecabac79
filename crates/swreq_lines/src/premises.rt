//! Reading the numbers of premises.

ghost use Rattle.std.specs.{Prelude.{◌≡◌, ℕ, List, IfOk}, List.{AllByRecursion}};
ghost use Rattle.swreq_lines.specs.{GoodLines.{IsShort}, LineTexts.{premises_text}, Pieces.{behind}};

use crate::numbers::read_number;
use crate::pieces::{next_piece, next_word};
use std::alloc::{AllocError, Global};

/// The numbers after the word `from`, with a comma and a space between each two.
pub(crate) fn read_premises(alloc: Global, text: &[u8]) -> Result<Vec<usize>, AllocError>
    ensures { (ns : List ℕ) → AllByRecursion IsShort ns → text.now ≡ behind (premises_text ns)
        → IfOk result (λ v. v.items ≡ ns) }
{
    let mut numbers = Vec::new(alloc);
    let mut rest = next_word(text).rest;
    while !rest.is_empty() {
        let next = next_piece(rest, b',');
        numbers.push(read_number(next.piece) as usize)?;
        rest = next_word(next.rest).rest;
    }
    Ok(numbers)
}
