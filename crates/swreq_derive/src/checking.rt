//! The checker of derivations.
ghost use Rattle.std.specs.Prelude.{◌≡◌, ◌↔◌, ℕ, Some, IsOk, IfErr, OnOk, IsTrue, slice_get};
ghost use Rattle.swreq_param.specs.Tables.{AreDistinct};
ghost use Rattle.swreq_derive.specs.{declared.lines.Line.{Line}, Derivation.{BookDerivable}, Facts.{statement_of, term_facts, term_source, AreFactsOf}, Lines.{AreDerived, IsFirstNotDerived, IsNext, stated_by, AreLinesOf, IsLineOf}};

use crate::inference::{BinaryInference, NullaryInference, UnaryInference};
use crate::instances::{gives_from_none, gives_from_one, gives_from_two};
use crate::known::Facts;
use crate::lines::{BadLine, Line};
use crate::premises::{Premises, read_premises};
use swreq_param::ParamTable;

/// Whether each line is an instance of its rule, without the guard, over the lines before it. So
/// each statement of a list that is Ok is derivable by the book's rules.
///
/// It takes no memory.
pub fn check<F: Facts>(facts: &F, table: &ParamTable, lines: &[Line]) -> Result<(), BadLine>
    requires lines { AreLinesOf table.now (F.meaning facts.now) lines.now }
    requires facts { AreFactsOf table.now (F.meaning facts.now) }
    ensures ok { IsOk result ↔ AreDerived table.now (F.meaning facts.now) lines.now }
    ensures bad { IfErr result
        (λ b. IsFirstNotDerived table.now (F.meaning facts.now) lines.now b.line) }
    ensures derived { OnOk result ((k : ℕ) (l : Line) → slice_get lines.now k ≡ Some l
        → BookDerivable (term_facts table.now (F.meaning facts.now))
        (term_source table.now (F.meaning facts.now))
        (statement_of table.now l.statement)) }
{
    // Where two type parameters are equal, so are their ids.
    let _count = table.len();
    for (at, line) in lines.iter().enumerate() {
        if !follows(facts, table, &lines[..at], line) {
            return Err(BadLine { line: at + 1 });
        }
    }
    Ok(())
}

/// Whether a line is an instance of its rule over the lines before it.
fn follows<F: Facts>(facts: &F, table: &ParamTable, earlier: &[Line], line: &Line) -> bool
    requires distinct { AreDistinct table.now }
    requires earlier { AreLinesOf table.now (F.meaning facts.now) earlier.now }
    requires line { IsLineOf table.now (F.meaning facts.now) line.now }
    requires facts { AreFactsOf table.now (F.meaning facts.now) }
    ensures { IsTrue result
        ↔ IsNext table.now (F.meaning facts.now) (stated_by earlier.now) line.now }
{
    let conclusion = line.statement;
    match read_premises(earlier, line.premises.items()) {
        Premises::Zero => {
            let i = NullaryInference {
                facts,
                table,
                conclusion,
            };
            gives_from_none(&i, line.rule)
        }
        Premises::One(premise) => {
            let i = UnaryInference {
                facts,
                table,
                premise,
                conclusion,
            };
            gives_from_one(&i, line.rule)
        }
        Premises::Two(first, second) => {
            let i = BinaryInference {
                facts,
                table,
                first,
                second,
                conclusion,
            };
            gives_from_two(&i, line.rule)
        }
        Premises::Other => false,
    }
}
