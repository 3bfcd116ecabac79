//! Whether what is read of a line is of the text.

ghost use Rattle.std.specs.{Prelude.{◌↔◌, IsTrue}, List.{AllByRecursion}};
ghost use Rattle.swreq_print.specs.swreq_lowering.OfText.{IsStepOf};
ghost use Rattle.swreq_print.specs.swreq_param.Owned.{as_term};
ghost use Rattle.swreq_print.specs.Reading.{HasNumbers, IsReadableType};
ghost use Rattle.swreq_lines.specs.{GoodLines.{HasReadableFields, IsReadableLine, IsReadableStatement, IsShort}, Written.{line_meant, statement_meant}};

use crate::reading::WrittenLine;
use crate::rules::{Fields, fields_of};
use crate::statements::WrittenStatement;
use swreq_print::lexicon::Lexicon;
use swreq_print::param::{ParamId, Step, TypeParam};

/// Whether the name or the associated type is of the text.
fn has_step(names: &Lexicon, step: Step) -> bool
    ensures { IsTrue result ↔ IsStepOf names.now step }
{
    match step {
        Step::Name(a) => a.rank < names.names(),
        Step::Bound(d) => d.rank < names.associated(),
    }
}

/// Whether each step is of the text.
fn has_steps(names: &Lexicon, steps: &[Step]) -> bool
    ensures { IsTrue result ↔ AllByRecursion (IsStepOf names.now) steps.now }
{
    steps.iter().all(|step| has_step(names, *step))
}

/// The numbers of a generic parameter have 32 bits.
fn numbers_are_short(g: ParamId)
    ensures { HasNumbers g }
{}

/// Whether the members of a type parameter are of the text.
fn has_type(names: &Lexicon, t: &TypeParam) -> bool
    ensures { IsTrue result ↔ IsReadableType names.now (as_term t.now) }
{
    numbers_are_short(t.head);
    has_steps(names, t.steps.items())
}

/// Whether the type parameters and the protocol of a statement are of the text.
fn has_statement(names: &Lexicon, statement: &WrittenStatement) -> bool
    ensures { IsTrue result ↔ IsReadableStatement names.now (statement_meant statement.now) }
{
    match statement {
        WrittenStatement::Valid(t) => has_type(names, t),
        WrittenStatement::Conforms(t, p) => has_type(names, t) && p.rank < names.protocols(),
        WrittenStatement::IsAnyObject(t) => has_type(names, t),
        WrittenStatement::Equals(t, u) => has_type(names, t) && has_type(names, u),
    }
}

/// Whether the protocol and the name of a rule are of the text.
fn has_fields(names: &Lexicon, fields: Fields) -> bool
    ensures { IsTrue result ↔ HasReadableFields names.now fields }
{
    let protocol = match fields.protocol {
        Some(p) => p.rank < names.protocols(),
        None => true,
    };
    let name = match fields.name {
        Some(a) => a.rank < names.names(),
        None => true,
    };
    protocol && name
}

/// Whether each number has 32 bits.
fn are_short(numbers: &[usize]) -> bool
    ensures { IsTrue result ↔ AllByRecursion IsShort numbers.now }
{
    numbers.iter().all(|n| *n <= u32::MAX as usize)
}

/// Whether all that a line names is of the text, and its numbers have 32 bits.
pub(crate) fn has_line(names: &Lexicon, line: &WrittenLine) -> bool
    ensures { IsTrue result ↔ IsReadableLine names.now (line_meant line.now) }
{
    let rule = has_fields(names, fields_of(line.rule));
    let statement = has_statement(names, &line.statement);
    let premises = are_short(&line.premises);
    rule && statement && premises
}
