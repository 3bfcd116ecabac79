//! The generators among candidates: those that are not derivable from those that were taken before them.
ghost use Rattle.std.specs.Prelude.{◌≡◌, [], ◌∷◌, ◌++◌, List, IfOk, IfSome, OnOk};
ghost use Rattle.swreq_machine.specs.swreq_derive.Derivation.{TermRequirement};
ghost use Rattle.swreq_candidates.specs.swreq_canonical.Generators.{Takes};
ghost use Rattle.swreq_list_rules.specs.Settings.{AreKnownIn, facts_in, params_in, said_in, says_in};
ghost use Rattle.swreq_machine.specs.swreq_symbols.Texts.{IsRequirementOfText};
ghost use Rattle.swreq_minimal.specs.{Lists.{AreRulesFor}, Passed.{IsTakenBefore}, Told.{Tells, TellsOfList}};

use crate::derivable::is_derivable;
use crate::extending::{extended_if_any, rules_of};
use std::alloc::{AllocError, Global};
use swreq_list_rules::{ListRules, Setting};
use swreq_machine::complete::Failed;
use swreq_machine::derive::Requirement;
use swreq_machine::watch::Watch;

/// Takes a candidate, and gives the rules of the list with it, where there are any of the list without it.
fn take_candidate<'b>(
    alloc: Global,
    setting: &Setting<'b>,
    taken: &mut Vec<Requirement>,
    rules: Option<ListRules<'b>>,
    candidate: Requirement,
) -> Result<Option<ListRules<'b>>, AllocError>
    requires rules { IfSome rules (AreRulesFor setting.now taken.old.items) }
    requires candidate { IsRequirementOfText setting.now.checked.text candidate }
    ensures taken { OnOk result (taken.new.items ≡ taken.old.items ++ candidate ∷ []) }
    ensures rules { IfOk result (λ o. IfSome o (AreRulesFor setting.entry.now taken.new.items)) }
{
    taken.push(candidate)?;
    extended_if_any(alloc, setting, rules, &[candidate])
}

/// Takes a candidate, unless it is derivable from those that were taken before. Where the rules of these are given, it gives those of what is
/// then taken, or None where a completion passes a limit.
fn take_underivable<'b, W: Watch>(
    alloc: Global,
    setting: &Setting<'b>,
    taken: &mut Vec<Requirement>,
    rules: Option<ListRules<'b>>,
    candidate: Requirement,
    watch: &mut W,
) -> Result<Option<ListRules<'b>>, Failed>
    requires taken { AreKnownIn setting.now taken.old.items }
    requires rules { IfSome rules (AreRulesFor setting.now taken.old.items) }
    requires candidate { IsRequirementOfText setting.now.checked.text candidate }
    ensures takes { OnOk result ((before : List TermRequirement)
        → Takes (facts_in setting.entry.now) (params_in setting.entry.now) []
        before (said_in setting.entry.now taken.old.items)
        → Takes (facts_in setting.entry.now) (params_in setting.entry.now) []
        (before ++ says_in setting.entry.now candidate ∷ [])
        (said_in setting.entry.now taken.new.items)) }
    ensures known { OnOk result (AreKnownIn setting.entry.now taken.new.items) }
    ensures rules { IfOk result (λ o. IfSome o (AreRulesFor setting.entry.now taken.new.items)) }
    ensures tells { TellsOfList setting.entry.now taken.old.items result
        (W.told watch.old) (W.told watch.new) }
{
    let derivable = is_derivable(alloc, setting, rules.as_ref(), taken, candidate, watch)?;
    if derivable {
        return Ok(rules);
    }
    Ok(take_candidate(alloc, setting, taken, rules, candidate)?)
}

/// Those of the candidates, in order, that are not derivable from those that were taken before them.
pub(crate) fn generators<W: Watch>(
    alloc: Global,
    setting: &Setting<'_>,
    candidates: &[Requirement],
    watch: &mut W,
) -> Result<Vec<Requirement>, Failed>
    requires { AreKnownIn setting.now candidates.now }
    ensures takes { IfOk result (λ v. Takes (facts_in setting.now) (params_in setting.now) []
        (said_in setting.now candidates.now) (said_in setting.now v.items)) }
    ensures known { IfOk result (λ v. AreKnownIn setting.now v.items) }
    ensures tells { Tells setting.now (IsTakenBefore (facts_in setting.now) (params_in setting.now)
        (said_in setting.now candidates.now)) result (W.told watch.old) (W.told watch.new) }
{
    let mut taken: Vec<Requirement> = Vec::new(alloc);
    let mut rules = rules_of(alloc, setting, &[])?;
    for k in 0..candidates.len() {
        rules = take_underivable(alloc, setting, &mut taken, rules, candidates[k], watch)?;
    }
    Ok(taken)
}
