//! Which requirements the next round uses.
#![tactic(auto, using(swreq_symbols::proofs::OfTexts::text_over))]

ghost use Rattle.std.specs.Prelude.{◌≡◌, List, [], length, Contains, IfOk, MatchOption, vec_len};
ghost use Rattle.swreq_complete.specs.swreq_rule.declared.rules.Rule.{Rule};
ghost use Rattle.swreq_rounds.specs.{Plan.{AreShown, AreShownByReduction, Item}, Rounds.{IsClosed}};
ghost use Rattle.swreq_valid.specs.{Flags.{Tells, TellsMore, chosen}, Plans.{AreWanted, items_of, plan_of}, Rounds.{AreJoined, first_rules}, Underway.{AreByItem}};

use crate::by_reduction;
use crate::by_reduction::ByReduction;
use crate::completing::{first_rules, given_by};
use crate::flags::{are_same, are_set, either};
use crate::underway::Joined;
use crate::usable::usable;
use crate::wanted::RoundStart;
use std::alloc::{AllocError, Global};
use swreq_complete::{CompleteRules, Failed, RewritingSystem, bear};
use swreq_symbols::Text;

/// The flags of the next round after one that used these requirements and ended with these rules, or None where there is no next
/// round, since the rules show no other requirements usable. A round that uses all requirements shows all usable, and is the last.
pub(crate) fn next_used(
    alloc: Global,
    text: &Text<'_>,
    start: &RoundStart,
    used: &[bool],
    rules: &CompleteRules<'_>,
) -> Result<Option<Vec<bool>>, AllocError>
    requires wanted { AreWanted text.now.table.now text.now.world.now.lexicon start.now.all.items }
    requires flags { length used.now ≡ vec_len start.now.all }
    requires shown { (x : Item)
        → Contains (chosen (items_of text.now.table.now start.now.all.items) used.now) x → AreShown
        (plan_of text.now.world.now text.now.table.now [] start.now) rules.now x }
    ensures { IfOk result (λ next. MatchOption next
        (Tells (AreShown (plan_of text.now.world.now text.now.table.now [] start.now) rules.now)
        (items_of text.now.table.now start.now.all.items) used.now)
        (λ flags. Tells (AreShown (plan_of text.now.world.now text.now.table.now [] start.now)
        rules.now)
        (items_of text.now.table.now start.now.all.items) flags.items ×
        (flags.items ≡ used.now → ⊥))) }
{
    if are_set(used) {
        return Ok(None);
    }
    let flags = usable(alloc, text, start, rules)?;
    if are_same(&flags, used) {
        Ok(None)
    } else {
        Ok(Some(flags))
    }
}

/// Which requirements reduction by these rules shows usable, by a flag for each.
fn shown_by_reduction(
    alloc: Global,
    text: &Text<'_>,
    start: &RoundStart,
    rules: &RewritingSystem<'_>,
) -> Result<Vec<bool>, AllocError>
    requires wanted { AreWanted text.now.table.now text.now.world.now.lexicon start.now.all.items }
    ensures { (base : List Rule) → IfOk result (λ v. Tells (AreShownByReduction
        (plan_of text.now.world.now text.now.table.now base start.now) rules.now)
        (items_of text.now.table.now start.now.all.items) v.items) }
{
    let mut flags = Vec::new(alloc);
    for k in 0..start.all.len() {
        let want = &start.all[k];
        let by = ByReduction {
            text: *text,
            rules,
            over: want.over,
        };
        let shown = by_reduction::is_usable(alloc, &by, want.requirement)?;
        flags.push(shown)?;
    }
    Ok(flags)
}

/// What joins by a short round with these rules, or None where no others do.
fn joined_by<'b>(
    alloc: Global,
    text: &Text<'_>,
    start: &RoundStart,
    used: &[bool],
    rules: RewritingSystem<'b>,
) -> Result<Option<Joined<'b>>, AllocError>
    requires wanted { AreWanted text.now.table.now text.now.world.now.lexicon start.now.all.items }
    requires flags { length used.now ≡ vec_len start.now.all }
    ensures { (base : List Rule) → IfOk result (λ o. MatchOption o
        (TellsMore (AreShownByReduction (plan_of text.now.world.now text.now.table.now
        base start.now) rules.entry)
        (items_of text.now.table.now start.now.all.items) used.now used.now)
        (λ j. (j.rules ≡ rules.entry) × (j.more.items ≡ used.now → ⊥)
        × TellsMore (AreShownByReduction (plan_of text.now.world.now text.now.table.now
        base start.now) rules.entry)
        (items_of text.now.table.now start.now.all.items) used.now j.more.items)) }
{
    let shown = shown_by_reduction(alloc, text, start, &rules)?;
    let more = either(alloc, used, &shown)?;
    if are_same(&more, used) {
        Ok(None)
    } else {
        Ok(Some(Joined { rules, more }))
    }
}

/// What joins by the short round of the requirements whose flags are set, or None where no others do. Where a rule that the equations
/// bear by themselves passes a limit there is no such round.
pub(crate) fn joined<'b>(
    alloc: Global,
    text: &Text<'_>,
    below: Option<&'b CompleteRules<'b>>,
    start: &RoundStart,
    used: &[bool],
) -> Result<Option<Joined<'b>>, AllocError>
    requires wanted { AreWanted text.now.table.now text.now.world.now.lexicon start.now.all.items }
    requires flags { AreByItem (items_of text.now.table.now start.now.all.items) used.now }
    ensures { IfOk result (λ o. MatchOption o
        (IsClosed start.now.limits
        (plan_of text.now.world.now text.now.table.now (first_rules below.entry) start.now)
        (chosen (items_of text.now.table.now start.now.all.items) used.now))
        (λ j. AreJoined start.now.limits (plan_of text.now.world.now text.now.table.now
        (first_rules below.entry) start.now) used.now j.rules j.more.items)) }
{
    let equations = given_by(alloc, text, start, used)?;
    let first = first_rules(alloc, below)?;
    match bear(alloc, first, &equations, start.limits) {
        Ok(rules) => joined_by(alloc, text, start, used, rules),
        Err(Failed::Limit { .. }) => Ok(None),
        Err(Failed::Memory) => Err(AllocError),
    }
}
