//! The candidates of a machine's list, read off the reduced system of its rules.
ghost use Rattle.std.specs.Prelude.{◌≡◌, ◌⊎◌, ◌↔◌, ◌<◌, ℕ, length, slice_get, Some, Contains, IfOk, OnOk, MatchOption};
ghost use Rattle.swreq_machine.specs.swreq_param.Tables.{Extends};
ghost use Rattle.swreq_machine.specs.swreq_derive.{Derivation.{Source, TermFacts, TermRequirement}, Derivation.Source.{Written}, Facts.{requirement_of}};
ghost use Rattle.swreq_machine.specs.swreq_complete.Reduced.{IsReduced};
ghost use Rattle.swreq_machine.specs.swreq_lowering.ByTable.{HasIdsOf};
ghost use Rattle.swreq_candidates.specs.swreq_canonical.{Canonical.{IsCanonical}, CanonicalOrder.{IsStrictlySorted}};
ghost use Rattle.swreq_candidates.specs.{Candidates.{IsCandidateList}, Completed.{IsCompleted}};
ghost use Rattle.swreq_machine.specs.swreq_lexicon.Views.{LexiconView};
ghost use Rattle.swreq_machine.specs.swreq_symbols.{Known.{IsRequirementIn, IsTextOver}, Meaning.{facts_of, symbols_of}, Vanishing.{Links}};
ghost use Rattle.swreq_machine.specs.swreq_valid.Plans.{AreKnown, listed};
ghost use Rattle.swreq_minimal.specs.{OfMachines.{OfItsList}, Sorted.{AreHere, BelongsAt, IsListOfFirstRules}, Typed.{IsRequirementOfRule}};

use crate::of_params::of_params;
use crate::order::{is_before, is_same};
use crate::reader::Reader;
use crate::rule_requirement::rule_requirement;
use std::alloc::{AllocError, Global};
use swreq_machine::Machine;
use swreq_machine::complete::CompleteRules;
use swreq_machine::derive::Requirement;
use swreq_machine::param::ParamTable;
use swreq_machine::rule::Rule;
use swreq_machine::world::World;

/// The place at which a requirement belongs, or None where it is there.
fn place_of(table: &ParamTable, found: &[Requirement], r: Requirement) -> Option<usize>
    requires { AreHere table.now found.now × HasIdsOf table.now r }
    ensures { MatchOption result
        (Contains (listed table.now found.now) (requirement_of table.now r))
        (BelongsAt table.now found.now r) }
{
    for k in 0..found.len() {
        let one = found[k];
        if is_same(table, one, r) {
            return None;
        }
        if is_before(table, r, one) {
            return Some(k);
        }
    }
    Some(found.len())
}

/// Puts a requirement where it belongs, unless it is there.
fn put_sorted(
    table: &ParamTable,
    found: &mut Vec<Requirement>,
    r: Requirement,
) -> Result<(), AllocError>
    requires { AreHere table.now found.old.items × HasIdsOf table.now r }
    ensures members { OnOk result ((q : TermRequirement)
        → Contains (listed table.now found.new.items) q
        ↔ (Contains (listed table.now found.old.items) q ⊎ (q ≡ requirement_of table.now r))) }
    ensures sorted { OnOk result ((f : TermFacts) (s : Source)
        → ((q : TermRequirement) → Contains (listed table.now found.old.items) q
        ⊎ (q ≡ requirement_of table.now r) → IsCanonical f s q)
        → IsStrictlySorted (listed table.now found.old.items)
        → IsStrictlySorted (listed table.now found.new.items)) }
    ensures known { (x : LexiconView) → AreKnown table.now x found.old.items
        → IsRequirementIn table.now x r
        → OnOk result (AreKnown table.now x found.new.items) }
{
    match place_of(table, found, r) {
        None => Ok(()),
        Some(place) => {
            found.insert(place, r)?;
            Ok(())
        }
    }
}

/// Adds the requirement of a rule of the reduced system, where it has one, unless it is there.
fn add(
    by: &Reader<'_, '_>,
    table: &mut ParamTable,
    rule: &Rule,
    found: &mut Vec<Requirement>,
) -> Result<(), AllocError>
    requires reduced { IsReduced (Links by.now.rules.now) rule.now }
    requires known { AreKnown table.old by.now.world.now.lexicon found.old.items }
    ensures members { OnOk result ((q : TermRequirement)
        → Contains (listed table.new found.new.items) q
        ↔ (Contains (listed table.old found.old.items) q
        ⊎ IsRequirementOfRule by.now.world.now.lexicon by.now.rules.now by.now.params
        rule.now.left rule.now.right q)) }
    ensures sorted { OnOk result ((f : TermFacts) (s : Source)
        → ((q : TermRequirement) → Contains (listed table.old found.old.items) q
        ⊎ IsRequirementOfRule by.now.world.now.lexicon by.now.rules.now by.now.params
        rule.now.left rule.now.right q → IsCanonical f s q)
        → IsStrictlySorted (listed table.old found.old.items)
        → IsStrictlySorted (listed table.new found.new.items)) }
    ensures known { OnOk result (AreKnown table.new by.now.world.now.lexicon found.new.items) }
    ensures extends { Extends table.old table.new }
{
    let one = rule_requirement(by, table, rule)?;
    match one {
        None => Ok(()),
        Some(r) => put_sorted(table, found, r),
    }
}

/// The requirements of these rules of the reduced system, in order, each once.
fn collect(
    by: &Reader<'_, '_>,
    table: &mut ParamTable,
    system: &[Rule],
) -> Result<Vec<Requirement>, AllocError>
    requires { (k : ℕ) (rule : Rule) → slice_get system.now k ≡ Some rule
        → IsReduced (Links by.now.rules.now) rule }
    ensures said { IfOk result (λ v. IsListOfFirstRules by.now.world.now.lexicon by.now.rules.now
        by.now.params system.now (length system.now)
        (listed table.new v.items)) }
    ensures known { IfOk result (λ v. AreKnown table.new by.now.world.now.lexicon v.items) }
    ensures extends { Extends table.old table.new }
{
    let mut found: Vec<Requirement> = Vec::new(by.alloc);
    for k in 0..system.len() {
        let rule = &system[k];
        add(by, table, rule, &mut found)?;
    }
    Ok(found)
}

/// The candidates of the machine's list, in order. They are read off the reduced system of its rules.
pub(crate) fn candidates(
    alloc: Global,
    world: &World,
    table: &mut ParamTable,
    machine: &Machine,
) -> Result<Vec<Requirement>, AllocError>
    requires { IsTextOver table.old world.now }
    ensures candidates { OfItsList table.old world.now machine.now (λ w ps list.
        IsCompleted (symbols_of w.lexicon) (facts_of w) ps list
        → IfOk result (λ v. IsCandidateList (symbols_of w.lexicon) (facts_of w)
        (Written ps list) (listed table.new v.items))) }
    ensures known { IfOk result (λ v. AreKnown table.new world.now.lexicon v.items) }
    ensures extends { Extends table.old table.new }
{
    let rules = machine.rules();
    let system = of_params(alloc, rules)?;
    let by = Reader {
        alloc,
        world,
        rules,
        params: machine.params(),
    };
    collect(&by, table, &system)
}
