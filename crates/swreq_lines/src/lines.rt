//! Reading the lines of a derivation.

ghost use Rattle.std.specs.Prelude.{◌≡◌, ◌≤◌, Contains, IfErr, IfOk, length};
ghost use Rattle.swreq_print.specs.swreq_derive.{declared.lines.Line.{Line}, Lines.{line_of}};
ghost use Rattle.swreq_print.specs.swreq_param.Tables.{Extends};
ghost use Rattle.swreq_print.specs.Reading.{TellsApart};
ghost use Rattle.swreq_lines.specs.{GoodLines.{AreLinesOf, IsRefused, IsTextOf}, LineTexts.{HasLineIds}, Written.{IsRefusedAt}, declared.lines.LinesErr.TheVariants.{Memory}};

use crate::reader::Reader;
use crate::reading::read_line;
use std::alloc::{AllocError, AllocFailed, Global};
use swreq_print::derive::Line;
use swreq_print::lexicon::Lexicon;
use swreq_print::param::ParamTable;
use swreq_text::first_line;

/// Why lines are refused.
#[derive(Clone, Copy, Debug, PartialEq, Eq)]
pub enum LinesErr {
    /// The first line that is not good, counted from 1.
    Syntax { line: u32 },
    /// Memory ran out.
    Memory,
}

impl From<AllocError> for LinesErr {
    ghost from_gives = { λ _ e. e ≡ Memory };

    fn from(_: AllocError) -> Self {
        LinesErr::Memory
    }
}

impl<T: Drop> From<AllocFailed<T>> for LinesErr {
    ghost from_gives = { λ _ e. e ≡ Memory };

    fn from(_: AllocFailed<T>) -> Self {
        LinesErr::Memory
    }
}

/// The line with this number, or why it is refused.
fn good_line(reader: &Reader, table: &mut ParamTable, n: u32, text: &[u8]) -> Result<Line, LinesErr>
    ensures extends { Extends table.old table.new }
    ensures ids { IfOk result (HasLineIds reader.now.names.now table.new) }
    ensures line { IfOk result
        (λ l. IsTextOf reader.now.names.now n text.now (line_of table.new l)) }
    ensures refused { IfErr result (IsRefusedAt reader.now.names.now n text.now) }
{
    read_line(reader, table, n, text)?.ok_or(LinesErr::Syntax { line: n })
}

/// The lines of a derivation, numbered from 1, whose texts are all lines of the text up to its end, in order. The last line may lack
/// its line feed. It is `LinesErr::Syntax` if and only if some line is not good, with the first such line.
///
/// Type parameters come into the table, which begins with the old one on every answer.
pub fn read_lines(
    alloc: Global,
    names: &Lexicon,
    table: &mut ParamTable,
    text: &[u8],
) -> Result<Vec<Line>, LinesErr>
    requires names { TellsApart names.now }
    requires short { length text.now ≤ 1048576 }
    ensures extends { Extends table.old table.new }
    ensures ids { IfOk result
        (λ lines. (l : Line) → Contains lines.items l → HasLineIds names.now table.new l) }
    ensures lines { IfOk result (λ lines. AreLinesOf names.now table.new text.now lines.items) }
    ensures refused { IfErr result (IsRefused names.now text.now) }
{
    let reader = Reader { alloc, names };
    let mut lines: Vec<Line> = Vec::new(alloc);
    let mut rest = text;
    while let Some(found) = first_line(rest) {
        let n = lines.len() as u32 + 1;
        let line = good_line(&reader, table, n, found.line)?;
        lines.push(line)?;
        rest = found.rest;
    }
    Ok(lines)
}
