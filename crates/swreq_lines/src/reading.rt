//! Reading one line.

ghost use Rattle.std.specs.Prelude.{◌≡◌, ◌↔◌, ℕ, IfOk, IfSome, IsTrue, MatchOption};
ghost use Rattle.swreq_print.specs.swreq_derive.{Instances.{TermLine}, Lines.{line_of}};
ghost use Rattle.swreq_print.specs.swreq_param.Tables.{Extends};
ghost use Rattle.swreq_lines.specs.{GoodLines.{IsGood, IsReadableLine, IsShort, IsTextOf}, LineTexts.{HasLineIds, HasStatementIds, line_text}, Written.{line_meant}};

use crate::interning::intern_statement;
use crate::of_text::has_line;
use crate::pieces::next_word;
use crate::premises::read_premises;
use crate::printing::put_line;
use crate::reader::Reader;
use crate::rules::read_rule;
use crate::statements::{WrittenStatement, read_statement};
use std::alloc::{AllocError, Global};
use swreq_print::derive::{DerivRule, Line};
use swreq_print::lexicon::Lexicon;
use swreq_print::param::ParamTable;
use swreq_text::Seq;

/// A line over type parameters by themselves.
#[derive(Drop)]
pub(crate) struct WrittenLine {
    pub rule: DerivRule,
    pub premises: Vec<usize>,
    pub statement: WrittenStatement,
}

/// What a line says if it is good. Of another it is any line.
fn written_line(reader: &Reader, text: &[u8]) -> Result<WrittenLine, AllocError>
    ensures { (n : ℕ) (l : TermLine) → IsShort n → IsReadableLine reader.now.names.now l
        → text.now ≡ line_text reader.now.names.now n l
        → IfOk result (λ w. line_meant w ≡ l) }
{
    // Two spaces, and the number.
    let first = next_word(text);
    let second = next_word(first.rest);
    let number = next_word(second.rest);
    let stated = read_statement(reader, number.rest)?;
    let read = read_rule(reader, stated.rest);
    let premises = read_premises(reader.alloc, read.rest)?;
    Ok(WrittenLine {
        rule: read.rule,
        premises,
        statement: stated.statement,
    })
}

/// The line over the ids of the table.
fn intern_line(table: &mut ParamTable, written: WrittenLine) -> Result<Line, AllocError>
    ensures extends { Extends table.old table.new }
    ensures ids { IfOk result (λ l. HasStatementIds table.new l.statement) }
    ensures stands { IfOk result (λ l. line_of table.new l ≡ line_meant written) }
{
    let statement = intern_statement(table, &written.statement)?;
    Ok(Line {
        rule: written.rule,
        premises: Seq::new(written.premises),
        statement,
    })
}

/// Whether the text is that of the line with this number.
fn is_text_of(
    alloc: Global,
    names: &Lexicon,
    table: &ParamTable,
    n: usize,
    line: &Line,
    text: &[u8],
) -> Result<bool, AllocError>
    requires { HasLineIds names.now table.now line.now }
    ensures { IfOk result
        (λ b. IsTrue b ↔ (text.now ≡ line_text names.now n (line_of table.now line.now))) }
{
    let mut printed = Vec::new(alloc);
    put_line(alloc, names, table, n, line, &mut printed)?;
    Ok(printed.as_slice() == text)
}

/// The line with this number whose text it is, or None if and only if the text is not good.
pub(crate) fn read_line(
    reader: &Reader,
    table: &mut ParamTable,
    n: u32,
    text: &[u8],
) -> Result<Option<Line>, AllocError>
    ensures extends { Extends table.old table.new }
    ensures ids { IfOk result (λ o. IfSome o (HasLineIds reader.now.names.now table.new)) }
    ensures line { IfOk result (λ o. MatchOption o
        (IsGood reader.now.names.now n text.now → ⊥)
        (λ l. IsTextOf reader.now.names.now n text.now (line_of table.new l))) }
{
    let written = written_line(reader, text)?;
    if !has_line(reader.names, &written) {
        return Ok(None);
    }
    let line = intern_line(table, written)?;
    if is_text_of(reader.alloc, reader.names, table, n as usize, &line, text)? {
        Ok(Some(line))
    } else {
        Ok(None)
    }
}
