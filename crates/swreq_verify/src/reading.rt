// The sections of the second part of an input.
ghost use Rattle.std.specs.{Prelude.{◌≡◌, ◌∷◌, ◌+◌, ◌^◌, ◌<◌, ◌≤◌, ℕ, IfOk, length, map}, List.{AllByRecursion}};
ghost use Rattle.swreq_lines.specs.declared.lines.LinesErr.TheVariants.{Memory, Syntax};
ghost use Rattle.swreq_world.specs.swreq_param.Tables.{Extends};
ghost use Rattle.swreq_text.specs.Lines.{lines};
ghost use Rattle.swreq_lines.specs.{Reader.{TellsApart-prop}, swreq_print.Reading.{TellsApart}};
ghost use Rattle.swreq_verify.specs.{Laying.{IsFront, IsNoSection, IsSectionOver, section_of}, SecondParts.{AreSections, IsFirstMisfit, IsHeading}};

use crate::sections::{cut_body, is_heading};
use std::alloc::Global;
use swreq_lines::{LinesErr, read_lines};
use swreq_text::first_line;
use swreq_world::derive::Line;
use swreq_world::lexicon::Lexicon;
use swreq_world::param::ParamTable;

/// Reads lines as derivations, where names tell ids apart.
#[derive(Drop)]
struct Reader<'a> {
    alloc: Global,
    names: &'a Lexicon,
    ghost tells_apart: { TellsApart names.now } by { TellsApart-prop names.now },
}

/// What stands under a query: a heading, and the lines of a derivation.
#[derive(Drop)]
pub(crate) struct Section<'a> {
    pub heading: &'a [u8],
    pub derivation: Vec<Line>,
}

/// A section, and what follows it.
#[derive(Drop)]
struct Next<'a> {
    section: Section<'a>,
    rest: &'a [u8],
}

/// The refusal of a line, where `before` lines stand before those that were read: its number goes up by this many.
fn behind(before: u32, e: LinesErr) -> LinesErr
    requires { (n : ℕ) → e ≡ Syntax n → before + n < 2 ^ 32 }
    ensures { (n : ℕ) → result ≡ Syntax n → (m : ℕ) × (e ≡ Syntax m) × (n ≡ before + m) }
{
    match e {
        LinesErr::Syntax { line } => LinesErr::Syntax {
            line: before + line,
        },
        LinesErr::Memory => LinesErr::Memory,
    }
}

/// The section of a heading and of the derivation at the front of what stands under it. `before` lines stand before the heading.
fn read_under<'a>(
    reader: &Reader<'_>,
    table: &mut ParamTable,
    before: u32,
    heading: &'a [u8],
    text: &'a [u8],
) -> Result<Next<'a>, LinesErr>
    requires heading { IsHeading heading.now }
    requires short { length text.now ≤ 1048576 }
    requires before { before ≤ 1048576 }
    ensures extends { Extends table.old table.new }
    ensures section { IfOk result (λ n. IsSectionOver reader.now.names.now table.new n.section) }
    ensures front { IfOk result (λ n.
        IsFront reader.now.names.now (heading.now ∷ lines text.now)
        (section_of table.new n.section) (lines n.rest.now)) }
    ensures less { IfOk result (λ n. length n.rest.now ≤ length text.now) }
    ensures misfit { (n : ℕ) → result ≡ Err (Syntax n)
        → (k : ℕ) × IsNoSection reader.now.names.now (heading.now ∷ lines text.now) k
        × (n ≡ before + (k + 1)) }
{
    let body = cut_body(text);
    match read_lines(reader.alloc, reader.names, table, body.under) {
        Ok(derivation) => Ok(Next {
            section: Section {
                heading,
                derivation,
            },
            rest: body.rest,
        }),
        Err(e) => Err(behind(before + 1, e)),
    }
}

/// The section at the front of a text, before which `before` lines stand. It is `LinesErr::Syntax` if and only if no section stands there,
/// with the number of the first line that does not fit.
fn next_section<'a>(
    reader: &Reader<'_>,
    table: &mut ParamTable,
    before: u32,
    text: &'a [u8],
) -> Result<Next<'a>, LinesErr>
    requires short { length text.now ≤ 1048576 }
    requires before { before ≤ 1048576 }
    ensures extends { Extends table.old table.new }
    ensures section { IfOk result (λ n. IsSectionOver reader.now.names.now table.new n.section) }
    ensures front { IfOk result (λ n. IsFront reader.now.names.now (lines text.now)
        (section_of table.new n.section) (lines n.rest.now)) }
    ensures less { IfOk result (λ n. length n.rest.now ≤ length text.now) }
    ensures misfit { (n : ℕ) → result ≡ Err (Syntax n)
        → (k : ℕ) × IsNoSection reader.now.names.now (lines text.now) k
        × (n ≡ before + (k + 1)) }
{
    match first_line(text) {
        None => Err(LinesErr::Syntax { line: before + 1 }),
        Some(first) => {
            if is_heading(first.line) {
                read_under(reader, table, before, first.line, first.rest)
            } else {
                Err(LinesErr::Syntax { line: before + 1 })
            }
        }
    }
}

/// The sections of a text, of which there are to be `count`. It is `LinesErr::Syntax` if and only if the text is not made of `count`
/// sections, with the first line that does not fit.
///
/// Type parameters come into the table, which begins with the old one on every answer.
pub(crate) fn read_sections<'a>(
    alloc: Global,
    names: &Lexicon,
    table: &mut ParamTable,
    count: usize,
    text: &'a [u8],
) -> Result<Vec<Section<'a>>, LinesErr>
    requires names { TellsApart names.now }
    requires short { length text.now ≤ 1048576 }
    ensures extends { Extends table.old table.new }
    ensures each { IfOk result (λ v. AllByRecursion (IsSectionOver names.now table.new) v.items) }
    ensures sections { IfOk result
        (λ v. AreSections names.now count (lines text.now) (map (section_of table.new) v.items)) }
    ensures misfit { (n : ℕ) → result ≡ Err (Syntax n)
        → IsFirstMisfit names.now count (lines text.now) n }
{
    let reader = Reader { alloc, names };
    let mut sections: Vec<Section<'a>> = Vec::new(alloc);
    let mut before: u32 = 0;
    let mut rest = text;
    while sections.len() < count {
        let next = next_section(&reader, table, before, rest)?;
        before += next.section.derivation.len() as u32 + 1;
        rest = next.rest;
        sections.push(next.section)?;
    }
    if rest.is_empty() {
        Ok(sections)
    } else {
        Err(LinesErr::Syntax { line: before + 1 })
    }
}
