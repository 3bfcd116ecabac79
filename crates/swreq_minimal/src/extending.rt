//! The rules of a list that is extended by members.
ghost use Rattle.std.specs.{Prelude.{◌≡◌, IfOk, IfSome, Some}, Borrow.{Bor}};
ghost use Rattle.swreq_list_rules.specs.{ListRules.{ListRulesView}, Settings.{AreKnownIn}};
ghost use Rattle.swreq_minimal.specs.{Halves.{AreGrownBy}, Lists.{AreRulesFor}};

use std::alloc::{AllocError, Global};
use swreq_list_rules::{ListRules, Setting};
use swreq_machine::complete::Failed;
use swreq_machine::derive::Requirement;

/// The rules of a list with members more, or None where a completion passes a limit.
fn extended<'b>(
    alloc: Global,
    setting: &Setting<'_>,
    rules: ListRules<'b>,
    more: &[Requirement],
) -> Result<Option<ListRules<'b>>, AllocError>
    requires waiting { AreKnownIn setting.now rules.waiting }
    requires more { AreKnownIn setting.now more.now }
    ensures { IfOk result (λ o. IfSome o (AreGrownBy setting.now rules.entry more.now)) }
{
    match rules.with(alloc, setting, more) {
        Ok(extended) => Ok(Some(extended)),
        Err(Failed::Limit { .. }) => Ok(None),
        Err(Failed::Memory) => Err(AllocError),
    }
}

/// The rules of a list with members more, or None where there are no rules, or a completion passes a limit.
pub(crate) fn extended_if_any<'b>(
    alloc: Global,
    setting: &Setting<'_>,
    rules: Option<ListRules<'b>>,
    more: &[Requirement],
) -> Result<Option<ListRules<'b>>, AllocError>
    requires waiting { IfSome rules (λ rules. AreKnownIn setting.now rules.waiting) }
    requires more { AreKnownIn setting.now more.now }
    ensures { IfOk result (λ o. IfSome o (λ new. (old : ListRulesView)
        × (rules.entry ≡ Some old) × AreGrownBy setting.now old more.now new)) }
{
    match rules {
        None => Ok(None),
        Some(rules) => extended(alloc, setting, rules, more),
    }
}

/// The same rules once more, where there are any. What of them is not borrowed is copied.
pub(crate) fn cloned<'a>(
    alloc: Global,
    rules: Option<&'a ListRules<'_>>,
) -> Result<Option<ListRules<'a>>, AllocError>
    ensures { IfOk result (λ o. IfSome o (λ new. (old : Bor ListRulesView)
        × (rules.entry ≡ Some old) × (new ≡ old.now))) }
{
    match rules {
        None => Ok(None),
        Some(rules) => Ok(Some(rules.over(alloc)?)),
    }
}

/// The rules of a list with these members, or None where a completion passes a limit.
pub(crate) fn rules_of<'b>(
    alloc: Global,
    setting: &Setting<'b>,
    list: &[Requirement],
) -> Result<Option<ListRules<'b>>, AllocError>
    requires { AreKnownIn setting.now list.now }
    ensures { IfOk result (λ o. IfSome o (AreRulesFor setting.entry.now list.now)) }
{
    let rules = ListRules::empty(alloc, setting)?;
    extended(alloc, setting, rules, list)
}
