//! The minimised list of a machine's list.
ghost use Rattle.std.specs.Prelude.{◌≡◌, List, Contains, IfErr, IfOk};
ghost use Rattle.swreq_machine.specs.swreq_param.Tables.{Extends};
ghost use Rattle.swreq_machine.specs.swreq_derive.{Derivation.{TermRequirement}, Derivation.Source.{Written}, Equivalence.{AreEquivalent}};
ghost use Rattle.swreq_candidates.specs.swreq_canonical.{Canonical.{IsCanonical}, CanonicalOrder.{IsStrictlySorted}, Minimised.{IsIndependent, IsMinimised}};
ghost use Rattle.swreq_machine.specs.swreq_symbols.{Known.{IsTextOver}, Meaning.{facts_of, symbols_of}};
ghost use Rattle.swreq_machine.specs.swreq_world.ByTable.{world_by};
ghost use Rattle.swreq_machine.specs.swreq_valid.{Protocols.{AreRulesOf}, Plans.{AreKnown, listed}, Rounds.{last_rules}};
ghost use Rattle.swreq_machine.specs.Machines.{list_of};
ghost use Rattle.swreq_list_rules.specs.Settings.{AreKnownIn, facts_in, params_in, said_in};
ghost use Rattle.swreq_minimal.specs.{OfMachines.{OfItsList}, Passed.{AreMinimisedCandidates, IsPassed, IsPassedOf}, Told.{Tells, TellsFailure, TellsParts}};

use crate::candidates::candidates;
use crate::dropping::drop_derivable;
use crate::taking::generators;
use std::alloc::Global;
use swreq_list_rules::Setting;
use swreq_machine::Machine;
use swreq_machine::complete::{Failed, Limits};
use swreq_machine::derive::Requirement;
use swreq_machine::param::ParamTable;
use swreq_machine::symbols::Text;
use swreq_machine::valid::{CheckedText, Protocols};
use swreq_machine::watch::Watch;
use swreq_machine::world::World;

/// The minimised candidates: what is left of them.
fn minimised_candidates<W: Watch>(
    alloc: Global,
    setting: &Setting<'_>,
    candidates: &[Requirement],
    watch: &mut W,
) -> Result<Vec<Requirement>, Failed>
    requires { AreKnownIn setting.now candidates.now }
    ensures minimised { IfOk result (λ v. AreMinimisedCandidates
        (facts_in setting.now) (params_in setting.now)
        (said_in setting.now candidates.now) (said_in setting.now v.items)) }
    ensures known { IfOk result (λ v. AreKnownIn setting.now v.items) }
    ensures tells { Tells setting.now (IsPassed (facts_in setting.now) (params_in setting.now)
        (said_in setting.now candidates.now)) result (W.told watch.old) (W.told watch.new) }
{
    let mut left = generators(alloc, setting, candidates, watch)?;
    drop_derivable(alloc, setting, &mut left, watch)?;
    Ok(left)
}

/// The minimised list of the machine's list.
///
/// It derives what the list derives and is derived from it, and none of its members is derivable from the others. Its members are
/// canonical and strictly sorted. `Failed::Limit` comes only where the rounds of a list that is met on the way stop at a limit, with
/// its trace. These lists are for each candidate those that were taken before it, and for each of the taken, from the last to the
/// first, what is then left without it. The watcher is told the events of the rounds of such lists. The table
/// grows, its ids stay, and so does the world over it.
pub fn minimise<W: Watch>(
    alloc: Global,
    world: &World,
    table: &mut ParamTable,
    protocols: &Protocols,
    machine: &Machine,
    limits: Limits,
    watch: &mut W,
) -> Result<Vec<Requirement>, Failed>
    requires text { IsTextOver table.old world.now }
    requires protocols { AreRulesOf (world_by table.old world.now)
        (last_rules protocols.now.rounds) }
    ensures minimised { OfItsList table.old world.now machine.now (λ w ps list.
        IfOk result (λ v. IsMinimised (facts_of w) ps list (listed table.new v.items))) }
    ensures same { OfItsList table.old world.now machine.now (λ w ps list.
        IfOk result (λ v. AreEquivalent (facts_of w) ps list (listed table.new v.items))) }
    ensures independent { OfItsList table.old world.now machine.now (λ w ps list.
        IfOk result (λ v. IsIndependent (facts_of w) ps (listed table.new v.items))) }
    ensures canonical { OfItsList table.old world.now machine.now (λ w ps list.
        IfOk result (λ v. (r : TermRequirement) → Contains (listed table.new v.items) r
        → IsCanonical (facts_of w) (Written ps list) r)) }
    ensures sorted { OfItsList table.old world.now machine.now (λ w ps list.
        IfOk result (λ v. IsStrictlySorted (listed table.new v.items))) }
    ensures told { OfItsList table.old world.now machine.now (λ w ps list.
        IfOk result (λ _. TellsParts limits
        (list_of w (last_rules protocols.now.rounds) machine.now.params)
        (IsPassedOf (symbols_of w.lexicon) (facts_of w) ps list)
        (W.told watch.old) (W.told watch.new))) }
    ensures failed { OfItsList table.old world.now machine.now (λ w ps list.
        IfErr result (TellsFailure limits
        (list_of w (last_rules protocols.now.rounds) machine.now.params)
        (IsPassedOf (symbols_of w.lexicon) (facts_of w) ps list)
        (W.told watch.old) (W.told watch.new))) }
    ensures known { IfOk result (λ v. AreKnown table.new world.now.lexicon v.items) }
    ensures extends { Extends table.old table.new }
    ensures world { world_by table.new world.now ≡ world_by table.old world.now }
    ensures text { IsTextOver table.new world.now }
{
    let _of_protocols = protocols.rules().count();
    let _of_list = machine.rules().count();
    let found = candidates(alloc, world, table, machine)?;
    let text = Text { world, table };
    let checked = CheckedText { text, protocols };
    let setting = Setting {
        checked,
        params: machine.params(),
        limits,
    };
    minimised_candidates(alloc, &setting, &found, watch)
}
