//! Members of a list that become usable join its rules.
ghost use Rattle.std.specs.Prelude.{◌≡◌, ◌<◌, IfOk, List, Contains, MatchOption, get_or, length};
ghost use Rattle.swreq_machine.specs.swreq_derive.{declared.requirements.Requirement.{Requirement}, Derivation.{TermRequirement}};
ghost use Rattle.swreq_machine.specs.swreq_symbols.Texts.{IsRequirementOfText};
ghost use Rattle.swreq_list_rules.specs.{ListRules.{AreCompletedBy, AreOfList, AreShownBy, AreUnderway}, Settings.{AreKnownIn, says_in}};

use crate::derivable::has_valid_sides;
use crate::list_rules::ListRules;
use crate::setting::Setting;
use std::alloc::{AllocError, Global};
use swreq_machine::complete::{CompleteRules, Failed, extend};
use swreq_machine::derive::Requirement;
use swreq_machine::symbols::equation;
use swreq_machine::watch::Quiet;

/// The place of the first requirement whose type parameters the rules show valid, or None where there is none.
fn first_usable(
    alloc: Global,
    setting: &Setting<'_>,
    rules: &CompleteRules<'_>,
    waiting: &[Requirement],
) -> Result<Option<usize>, AllocError>
    requires { AreKnownIn setting.now waiting.now }
    ensures { IfOk result (λ o. MatchOption o
        ((r : Requirement) → Contains waiting.now r
        → AreShownBy setting.now rules.now (says_in setting.now r) → ⊥)
        (λ k. (k < length waiting.now) × ((r : Requirement) → get_or waiting.now k r ≡ r
        → AreShownBy setting.now rules.now (says_in setting.now r)))) }
{
    for k in 0..waiting.len() {
        if has_valid_sides(alloc, setting, rules, waiting[k])? {
            return Ok(Some(k));
        }
    }
    Ok(None)
}

/// The rules, completed by the equation of a requirement.
fn completed_by<'b>(
    alloc: Global,
    setting: &Setting<'_>,
    rules: CompleteRules<'b>,
    r: Requirement,
) -> Result<CompleteRules<'b>, Failed>
    requires { IsRequirementOfText setting.now.checked.text r }
    ensures { IfOk result
        (AreCompletedBy setting.now (says_in setting.now r) rules.entry) }
{
    let sides = equation(alloc, &setting.checked.text, None, &r)?;
    extend(alloc, rules, &[sides], setting.limits, &mut Quiet)
}

/// The rules of a list, where these are those of some of its members and the others wait: one after the other, those that wait and are usable
/// join them.
pub(crate) fn settle<'b>(
    alloc: Global,
    setting: &Setting<'_>,
    rules: CompleteRules<'b>,
    waiting: Vec<Requirement>,
) -> Result<ListRules<'b>, Failed>
    requires { AreKnownIn setting.now waiting.items }
    ensures { (list added : List TermRequirement)
        → AreUnderway setting.now list added rules.entry waiting.items
        → IfOk result (AreOfList setting.now list) }
{
    let mut rules = rules;
    let mut waiting = waiting;
    let mut next = first_usable(alloc, setting, &rules, &waiting)?;
    'waiting: while let Some(place) = next {
        let r = waiting.remove(place);
        rules = completed_by(alloc, setting, rules, r)?;
        next = first_usable(alloc, setting, &rules, &waiting)?;
    }
    Ok(ListRules::new(rules, waiting))
}
