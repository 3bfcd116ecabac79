//! Lines for the requirements that are derivable.
ghost use Rattle.std.specs.Prelude.{◌≡◌, Contains, IfOk, IfSome, None};
ghost use Rattle.swreq_machine.specs.{swreq_param.Tables.{Extends}, swreq_symbols.Known.{IsRequirementIn, IsTextOver}, swreq_world.FactsAt.{facts_at}};
ghost use Rattle.swreq_machine.specs.swreq_derive.{declared.{lines.Line.{Line as LineView}, requirements.Statement.TheVariants.{Holds}}, Derivation.TermStatement.{Requires}};
ghost use Rattle.swreq_machine.specs.swreq_derive.{Facts.{IdFacts, requirement_of}, Lines.{AreDerived, AreLinesOf}};
ghost use Rattle.swreq_lines.specs.LineTexts.{HasLineIds};
ghost use Rattle.swreq_derivation.specs.{Needed.{EndIn}, UnderWay.{AllIn, AreIdsIn, ContinuesFrom, States}};
ghost use Rattle.swreq_births.specs.Systems.{FitsHistory};
ghost use Rattle.swreq_explain.specs.{Asked.{AreRoundsFor, IsYes}, Histories.{IsHistoryOver}, Written.{IsAsked}};

use crate::equations::owned;
use crate::history::{history_of, text_history_of};
use crate::stating::state_requirement;
use crate::validity::RoundReader;
use std::alloc::{AllocError, Global};
use std::mem;
use swreq_births::{History, OwnedRequirement, system_count};
use swreq_derivation::{Derivation, needed};
use swreq_machine::Machine;
use swreq_machine::derive::{Line, Requirement, Statement};
use swreq_machine::lowering::FuncId;
use swreq_machine::param::{ParamId, ParamTable};
use swreq_machine::symbols::{Text, equation};
use swreq_machine::valid::Protocols;
use swreq_machine::word::Word;
use swreq_machine::world::World;

/// The lines that the line that states the requirement needs, and this line last.
fn finish(derivation: &Derivation, r: Requirement) -> Result<Vec<Line>, AllocError>
    requires ids { AreIdsIn derivation.now.table (Holds r) }
    requires says { States derivation.now (Requires (requirement_of derivation.now.table r)) }
    ensures derived { IfOk result (λ v. (m : IdFacts) → AreDerived derivation.now.table m
        derivation.now.lines → AreDerived derivation.now.table m v.items) }
    ensures last { IfOk result (λ v. EndIn v.items (Holds r)) }
    ensures ids { IfOk result (λ v. AllIn derivation.now.table v.items) }
{
    // If two ids stand for the same type parameter, they are equal.
    let _count = derivation.table().len();
    match derivation.number_of(Statement::Holds { r }) {
        None => unreachable!(),
        Some(n) => {
            let lines = needed(derivation.alloc(), &derivation.lines()[..n])?;
            Ok(lines)
        }
    }
}

/// Lines that state the requirement with these sides. `by_itself` is the requirement with its type parameters in full. The rules of the
/// last system reduce the sides to one word.
fn lines_on(
    history: &History,
    derivation: &mut Derivation,
    r: Requirement,
    by_itself: &OwnedRequirement,
    sides: &(Word, Word),
) -> Result<Vec<Line>, AllocError>
    requires { IsAsked history.now derivation.old.table r by_itself.now sides.now.0 sides.now.1 }
    ensures derived { IfOk result (λ v. (m : IdFacts) → AreDerived derivation.new.table m
        derivation.new.lines → AreDerived derivation.new.table m v.items) }
    ensures last { IfOk result (λ v. EndIn v.items (Holds r)) }
    ensures ids { IfOk result (λ v. AllIn derivation.new.table v.items) }
    ensures continues { ContinuesFrom (FitsHistory history.now) derivation.old derivation.new }
{
    let system = system_count(history) - 1;
    let t = derivation.param(ParamId { depth: 0, index: 0 })?;
    let reader = RoundReader { history, system, t };
    let (left, right) = (sides.0.symbols(), sides.1.symbols());
    state_requirement(reader, derivation, by_itself, left, right)?;
    finish(derivation, r)
}

/// The same as `explain`, by the history of the signature. One history serves for all that is asked of a signature.
pub fn explain_by(
    alloc: Global,
    world: &World,
    table: &mut ParamTable,
    history: &History,
    r: Requirement,
) -> Result<Vec<Line>, AllocError>
    requires text { IsTextOver table.old world.now }
    requires yes { (f : FuncId) × IsHistoryOver table.old world.now f history.now
        × IsYes table.old world.now f r }
    ensures derived { IfOk result (λ v. (f : FuncId)
        → IsHistoryOver table.old world.now f history.now
        → AreDerived table.new (facts_at world.now f) v.items) }
    ensures last { IfOk result (λ v. EndIn v.items (Holds r)) }
    ensures lines { IfOk result (λ v. (f : FuncId)
        → IsHistoryOver table.old world.now f history.now
        → AreLinesOf table.new (facts_at world.now f) v.items) }
    ensures ids { IfOk result
        (λ v. (l : LineView) → Contains v.items l → HasLineIds world.now.lexicon table.new l) }
    ensures extends { Extends table.old table.new }
{
    let sides = equation(alloc, &Text { world, table }, None, &r)?;
    let by_itself = owned(alloc, table, r)?;
    let taken = mem::replace(table, ParamTable::new(alloc));
    let mut derivation = Derivation::new(alloc, taken);
    let written = lines_on(history, &mut derivation, r, &by_itself, &sides);
    *table = derivation.into_table();
    let lines = written?;
    Ok(lines)
}

/// Lines of a derivation of a requirement of a signature, by the rules without the guard.
///
/// `machine` is the machine of the signature, and the requirement is derivable. The checker of derivations accepts the lines over the facts
/// of the signature, and the last line states the requirement. The type parameters of the lines are added to the table. It begins with the
/// old one, whatever the call answers.
pub fn explain(
    alloc: Global,
    world: &World,
    table: &mut ParamTable,
    protocols: &Protocols,
    machine: &Machine,
    f: FuncId,
    r: Requirement,
) -> Result<Vec<Line>, AllocError>
    requires text { IsTextOver table.old world.now }
    requires rounds { AreRoundsFor table.old world.now f protocols.now machine.now }
    requires yes { IsYes table.old world.now f r }
    ensures derived { IfOk result (λ v. AreDerived table.new (facts_at world.now f) v.items) }
    ensures last { IfOk result (λ v. EndIn v.items (Holds r)) }
    ensures lines { IfOk result (λ v. AreLinesOf table.new (facts_at world.now f) v.items) }
    ensures ids { IfOk result
        (λ v. (l : LineView) → Contains v.items l → HasLineIds world.now.lexicon table.new l) }
    ensures extends { Extends table.old table.new }
{
    let base = text_history_of(alloc, world, table, protocols)?;
    let text = Text { world, table };
    let history = history_of(alloc, &text, &base, protocols, machine, f)?;
    explain_by(alloc, world, table, &history, r)
}

/// Lines of a derivation of a requirement of a signature, as `explain` writes them, or None where the requirement is not derivable.
pub fn derivation_of(
    alloc: Global,
    world: &World,
    table: &mut ParamTable,
    protocols: &Protocols,
    machine: &Machine,
    f: FuncId,
    r: Requirement,
) -> Result<Option<Vec<Line>>, AllocError>
    requires text { IsTextOver table.old world.now }
    requires rounds { AreRoundsFor table.old world.now f protocols.now machine.now }
    requires r { IsRequirementIn table.old world.now.lexicon r }
    ensures none { IfOk result (λ o. o ≡ None → IsYes table.old world.now f r → ⊥) }
    ensures derived { IfOk result
        (λ o. IfSome o (λ v. AreDerived table.new (facts_at world.now f) v.items)) }
    ensures last { IfOk result (λ o. IfSome o (λ v. EndIn v.items (Holds r))) }
    ensures ids { IfOk result (λ o. IfSome o
        (λ v. (l : LineView) → Contains v.items l → HasLineIds world.now.lexicon table.new l)) }
    ensures extends { Extends table.old table.new }
{
    let text = Text { world, table };
    if !machine.derives(alloc, &text, r)? {
        return Ok(None);
    }
    let lines = explain(alloc, world, table, protocols, machine, f, r)?;
    Ok(Some(lines))
}
