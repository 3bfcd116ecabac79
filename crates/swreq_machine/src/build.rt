//! The machine of a written list, where all that is written is a type parameter.
ghost use Rattle.std.specs.Prelude.{◌≡◌, IfOk, List};
ghost use Rattle.swreq_valid.specs.swreq_derive.{Derivation.{TermRequirement}, Derivation.Source.{Written as WrittenList}, Facts.{generic_params}};
ghost use Rattle.swreq_valid.specs.swreq_symbols.{Meaning.{facts_of}, Texts.{world_of}};
ghost use Rattle.swreq_valid.specs.swreq_lowering.ByTable.{placed};
ghost use Rattle.swreq_valid.specs.{Built.{Builds, IsOnlyBuilt, Judges}, Plans.{AreWrittenInText, bare, listed}, Rounds.{AreRounds, last_rules}, Sides.{IsShownIn, list_sides, sides}};
ghost use Rattle.swreq_machine.specs.Machines.{IsMachineOf, built_rules, plan_over};

use crate::machine::{Machine, core};
use std::alloc::{AllocError, Global};
use swreq_valid::complete::Limits;
use swreq_valid::derive::{Params, Requirement};
use swreq_valid::lowering::Written;
use swreq_valid::symbols::Over;
use swreq_valid::watch::Watch;
use swreq_valid::{CheckedText, Refused, first_invalid};

/// The requirements without the places of their sides.
fn bare(alloc: Global, written: &[Written]) -> Result<Vec<Requirement>, AllocError>
    ensures { IfOk result (λ v. v.items ≡ bare written.now) }
{
    let mut list = Vec::new(alloc);
    for k in 0..written.len() {
        let requirement = written[k].requirement;
        list.push(requirement)?;
    }
    Ok(list)
}

/// The machine, if its rules show each side valid.
fn judge_machine<'b>(
    alloc: Global,
    checked: &CheckedText<'_, '_>,
    machine: Machine<'b>,
    written: &[Written],
) -> Result<Machine<'b>, Refused>
    requires { AreWrittenInText checked.now.text written.now }
    ensures judged { (rs : List TermRequirement)
        → Judges (IsShownIn (world_of checked.now.text) (last_rules machine.entry.rounds))
        (sides (WrittenList (generic_params machine.entry.params) rs)
        (placed checked.now.text.table.now written.now)) (last_rules machine.entry.rounds)
        (built_rules result) }
    ensures same { IfOk result (λ m. m ≡ machine.entry) }
{
    let over = Over::Signature(machine.params());
    let found = first_invalid(alloc, &checked.text, machine.rules(), over, written)?;
    match found {
        Some(at) => Err(Refused::NotATypeParameter { at }),
        None => Ok(machine),
    }
}

impl<'b> Machine<'b> {
    /// The machine of a written list, over the rules of the protocols.
    ///
    /// It is `Refused::Limit` if and only if the rounds of the list stop at a limit, with the limit that was passed first since the last
    /// round that ended, and the trace of the round that passed it; and `Refused::NotATypeParameter` if and only if they do not and a side
    /// is no type parameter, at the first such side. The watcher is told the events of the rounds.
    pub fn build<W: Watch>(
        alloc: Global,
        checked: &CheckedText<'_, 'b>,
        params: Params,
        written: &[Written],
        limits: Limits,
        watch: &mut W,
    ) -> Result<Machine<'b>, Refused>
        requires { AreWrittenInText checked.now.text written.now }
        ensures answer { Builds limits (plan_over checked.now params (bare written.now))
            (facts_of (world_of checked.now.text))
            (list_sides checked.now.text.table.now params written.now) (W.told watch.old)
            (W.told watch.new) (built_rules result) }
        ensures only { IsOnlyBuilt limits
            (plan_over checked.now params (bare written.now)) (facts_of (world_of checked.now.text))
            (list_sides checked.now.text.table.now params written.now) (built_rules result) }
        ensures rounds { IfOk result (λ m. AreRounds limits
            (plan_over checked.now params (bare written.now)) m.rounds) }
        ensures machine { IfOk result (IsMachineOf (world_of checked.now.text)
            (listed checked.now.text.table.now (bare written.now))) }
        ensures params { IfOk result (λ m. m.params ≡ params) }
    {
        let list = bare(alloc, written)?;
        let machine = core(alloc, checked, params, &list, limits, watch)?;
        judge_machine(alloc, checked, machine, written)
    }
}
