//! The requirements of a callee that fail.
ghost use Rattle.std.specs.Prelude.{◌≡◌, ◌↔◌, ◌<◌, ◌^◌, ◌∷◌, ◌++◌, [], if◌then◌else◌, OnOk, List, All, IsTrue, IfOk, Some, length, map};
ghost use Rattle.swreq_machine.specs.swreq_param.{Tables.{Extends, term_at}, declared.ids.TermId.{TermId}};
ghost use Rattle.swreq_machine.specs.swreq_derive.{Derivation.{TermRequirement}, Derivation.Source.{Written}, Derivation.TermStatement.{Requires}, Facts.{generic_params, requirement_of}};
ghost use Rattle.swreq_machine.specs.swreq_symbols.Known.{IsTextOver};
ghost use Rattle.swreq_machine.specs.{Asked.{IsDerivable}, Machines.{IsMachineOf}};
ghost use Rattle.swreq_machine.specs.swreq_valid.Plans.{listed};
ghost use Rattle.swreq_machine.specs.swreq_world.{ByTable.{world_by}, FactsAt.{facts_of}};
ghost use Rattle.swreq_subst.specs.{Arguments.{requirement_with}, Calls.{AreThere, IsCallIn, IsMachineOn, call_by}, Failing.{AreFailing, AreFailingIn, CanBeJudged, IsJudgingOver, judged_in}};

use crate::arguments::requirement_with;
use crate::calls::Call;
use std::alloc::{AllocError, Global};
use swreq_machine::Machine;
use swreq_machine::derive::{Params, Requirement};
use swreq_machine::param::{ParamTable, TermId};
use swreq_machine::symbols::Text;
use swreq_machine::world::World;

/// By what the requirements of a callee are judged: the machine of the caller, and types for the generic parameters of the callee.
#[derive(Clone, Copy)]
struct Judging<'a> {
    alloc: Global,
    world: &'a World,
    machine: &'a Machine<'a>,
    params: Params,
    args: &'a [TermId],
}

/// Whether a requirement holds with the types in place of its generic parameters.
fn holds(by: &Judging<'_>, table: &mut ParamTable, r: Requirement) -> Result<bool, AllocError>
    requires by { IsJudgingOver table.old by.now }
    requires r { CanBeJudged table.old by.now r }
    ensures holds { IfOk result (λ b. (list : List TermRequirement)
        → IsMachineOf (judged_in table.old by.now) list by.now.machine.now
        → IsTrue b ↔ IsDerivable (judged_in table.old by.now) by.now.machine.now list
        (Requires (requirement_with by.now.params (map (term_at table.old) by.now.args.now)
        (requirement_of table.old r)))) }
    ensures extends { Extends table.old table.new }
{
    let requirement = requirement_with(by.alloc, table, by.params, by.args, r)?;
    let text = Text {
        world: by.world,
        table,
    };
    by.machine.derives(by.alloc, &text, requirement)
}

/// The types of a call.
fn types_of(alloc: Global, args: &[Option<TermId>]) -> Result<Vec<TermId>, AllocError>
    requires { AreThere args.now }
    ensures { IfOk result (λ v. map (λ (t : TermId). Some t) v.items ≡ args.now) }
{
    let mut types = Vec::new(alloc);
    for k in 0..args.len() {
        match args[k] {
            Some(t) => types.push(t)?,
            None => unreachable!(),
        }
    }
    Ok(types)
}

/// Puts the number of a requirement that does not hold at the end.
fn note(numbers: &mut Vec<u32>, number: u32, holds: bool) -> Result<(), AllocError>
    ensures { OnOk result (numbers.new.items
        ≡ (if holds then numbers.old.items else numbers.old.items ++ number ∷ [])) }
{
    if holds {
        return Ok(());
    }
    numbers.push(number)?;
    Ok(())
}

/// The numbers of the requirements of a list that do not hold.
fn numbers_of(
    by: &Judging<'_>,
    table: &mut ParamTable,
    list: &[Requirement],
) -> Result<Vec<u32>, AllocError>
    requires by { IsJudgingOver table.old by.now }
    requires list { All (CanBeJudged table.old by.now) list.now }
    requires few { length list.now < 2 ^ 32 }
    ensures failing { IfOk result (λ numbers. (given : List TermRequirement)
        → IsMachineOf (judged_in table.old by.now) given by.now.machine.now
        → AreFailing (facts_of (judged_in table.old by.now))
        (Written (generic_params by.now.machine.now.params) given)
        by.now.params (map (term_at table.old) by.now.args.now)
        (listed table.old list.now) numbers.items) }
    ensures extends { Extends table.old table.new }
{
    let mut numbers = Vec::new(by.alloc);
    for k in 0..list.len() {
        let holds = holds(by, table, list[k])?;
        note(&mut numbers, k as u32 + 1, holds)?;
    }
    Ok(numbers)
}

/// The numbers of exactly the requirements of the callee that fail, from 1 and ascending: those that are not derivable from the
/// caller's list with the types of the call in place of the callee's generic parameters.
///
/// The machine is that of the caller, and each type of the call is there. On every answer the table begins with the one that was
/// given.
pub fn failing(
    alloc: Global,
    world: &World,
    table: &mut ParamTable,
    machine: &Machine,
    c: &Call,
) -> Result<Vec<u32>, AllocError>
    requires text { IsTextOver table.old world.now }
    requires call { IsCallIn table.old world.now c.now }
    requires there { AreThere c.now.args }
    requires machine { IsMachineOn (world_by table.old world.now) c.now.f machine.now }
    ensures failing { IfOk result (λ numbers.
        AreFailingIn (world_by table.old world.now) (call_by table.old c.now) numbers.items) }
    ensures extends { Extends table.old table.new }
{
    let types = types_of(alloc, c.args.items())?;
    let list = world.bare_signature(alloc, c.g)?;
    let by = Judging {
        alloc,
        world,
        machine,
        params: world.params(c.g),
        args: &types,
    };
    numbers_of(&by, table, &list)
}
