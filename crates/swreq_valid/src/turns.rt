//! What comes after a round: the next one, the end, or the limit at which rounds stop.
#![tactic(auto, using(swreq_symbols::proofs::OfTexts::text_over))]

ghost use Rattle.std.specs.Prelude.{◌≡◌, List, [], ◌∷◌, ◌++◌, length, Contains, Some, None, IfOk, MatchOption, MatchResult};
ghost use Rattle.swreq_complete.specs.swreq_rule.declared.rules.Rule.{Rule};
ghost use Rattle.swreq_complete.specs.{declared.limit.Failed.TheVariants.{Limit}, declared.limit.Limits.{Limits}, Events.{events}};
ghost use Rattle.swreq_rounds.specs.{Plan.{AreShown, Item, Plan}, Rounds.{Ends, Passed as PassedLimit, Stops}};
ghost use Rattle.swreq_valid.specs.{Flags.{chosen}, Plans.{AreWanted, items_of, plan_of}, Rounds.{AreJoined, first_rules}, Underway.{AreByItem, FailsWith, IsDueNow, TurnsTo, first_of, used_by}};

use crate::joining::{joined, next_used};
use crate::round::{Round, Rounds};
use crate::underway::{Joined, Passed, Turn, Underway};
use crate::wanted::RoundStart;
use std::alloc::{AllocError, Global};
use swreq_complete::rule::Rule;
use swreq_complete::{CompleteRules, Failed};
use swreq_symbols::Text;
use swreq_text::Seq;

/// Puts a round last of those before.
fn noted<'b>(before: Vec<Round<'b>>, round: Round<'b>) -> Result<Vec<Round<'b>>, AllocError>
    ensures { IfOk result (λ v. v.items ≡ before.entry.items ++ round.entry ∷ []) }
{
    let mut before = before;
    before.push(round)?;
    Ok(before)
}

/// What comes after a round that ends with these rules.
pub(crate) fn after_end<'b>(
    alloc: Global,
    text: &Text<'_>,
    start: &RoundStart,
    state: Underway<'b>,
    rules: CompleteRules<'b>,
) -> Result<Turn<'b>, AllocError>
    requires wanted { AreWanted text.now.table.now text.now.world.now.lexicon start.now.all.items }
    requires flags { AreByItem (items_of text.now.table.now start.now.all.items) state.used.items }
    requires shown { (x : Item) → Contains (chosen (items_of text.now.table.now start.now.all.items)
        state.used.items) x → AreShown
        (plan_of text.now.world.now text.now.table.now [] start.now) rules x }
    ensures { (base : List Rule)
        → IsDueNow start.now.limits
        (plan_of text.now.world.now text.now.table.now base start.now) state.entry
        → Ends start.now.limits (plan_of text.now.world.now text.now.table.now base start.now)
        (used_by start.now.limits
        (plan_of text.now.world.now text.now.table.now base start.now) state.entry) rules.entry
        → IfOk result (TurnsTo start.now.limits
        (plan_of text.now.world.now text.now.table.now base start.now) state.entry
        (events (length base) rules.entry)) }
{
    let next = next_used(alloc, text, start, &state.used, &rules)?;
    match next {
        None => Ok(Turn::Lasts(Rounds::new(state.before, state.used, rules))),
        Some(used) => {
            let before = noted(state.before, Round::ended(state.used, rules))?;
            Ok(Turn::Goes(Underway {
                used,
                first: None,
                before,
            }))
        }
    }
}

/// A copy of a trace.
fn copied(alloc: Global, trace: &[Rule]) -> Result<Seq<Rule>, AllocError>
    ensures { IfOk result (λ v. v ≡ trace.now) }
{
    let mut copies = Vec::with_capacity(alloc, trace.len())?;
    for rule in trace {
        copies.push(rule.clone()?)?;
    }
    Ok(Seq::new(copies))
}

/// The next round after one that passed a limit, where others join by its short round.
fn anew<'b>(
    alloc: Global,
    state: Underway<'b>,
    found: Joined<'b>,
    passed: Passed,
) -> Result<Turn<'b>, AllocError>
    ensures { (limits : Limits) (plan : Plan) → state.entry.first ≡ None
        → AreByItem plan.all state.entry.used.items
        → Stops limits plan (used_by limits plan state.entry) passed.which passed.trace
        → AreJoined limits plan state.entry.used.items found.entry.rules found.entry.more.items
        → IfOk result (TurnsTo limits plan state.entry (events (length plan.base) passed.trace)) }
{
    let trace = copied(alloc, passed.trace.items())?;
    let before = noted(state.before, Round::stopped(state.used, trace, found.rules))?;
    Ok(Turn::Goes(Underway {
        used: found.more,
        first: Some(passed),
        before,
    }))
}

/// The next round after a short one by which others join.
pub(crate) fn once_more<'b>(state: Underway<'b>, found: Joined<'b>) -> Result<Turn<'b>, AllocError>
    ensures { (limits : Limits) (plan : Plan) (passed : PassedLimit)
        → first_of state.entry.first ≡ Some passed
        → AreByItem plan.all state.entry.used.items
        → AreJoined limits plan state.entry.used.items found.entry.rules found.entry.more.items
        → IfOk result (TurnsTo limits plan state.entry []) }
{
    let before = noted(state.before, Round::short(state.used, found.rules))?;
    Ok(Turn::Goes(Underway {
        used: found.more,
        first: state.first,
        before,
    }))
}

/// What comes after a round that passed a limit and was not begun anew.
fn after_first_limit<'b>(
    alloc: Global,
    text: &Text<'_>,
    below: Option<&'b CompleteRules<'b>>,
    start: &RoundStart,
    state: Underway<'b>,
    passed: Passed,
) -> Result<Turn<'b>, Failed>
    requires wanted { AreWanted text.now.table.now text.now.world.now.lexicon start.now.all.items }
    requires flags { AreByItem (items_of text.now.table.now start.now.all.items) state.used.items }
    requires first { state.first ≡ None }
    requires stops { Stops start.now.limits
        (plan_of text.now.world.now text.now.table.now (first_rules below) start.now)
        (chosen (items_of text.now.table.now start.now.all.items) state.used.items)
        passed.which passed.trace }
    ensures { MatchResult result
        (TurnsTo start.now.limits (plan_of text.now.world.now text.now.table.now
        (first_rules below.entry) start.now) state.entry
        (events (length (first_rules below.entry)) passed.trace))
        (FailsWith start.now.limits (plan_of text.now.world.now text.now.table.now
        (first_rules below.entry) start.now) state.entry
        (events (length (first_rules below.entry)) passed.trace)) }
{
    match joined(alloc, text, below, start, &state.used)? {
        None => Err(Failed::Limit {
            which: passed.which,
            trace: passed.trace,
        }),
        Some(found) => {
            let turn = anew(alloc, state, found, passed)?;
            Ok(turn)
        }
    }
}

/// The limit that was passed first.
fn first_limit(state: Underway<'_>) -> Failed
    ensures { MatchOption state.entry.first (Unit {0}) (λ f. result ≡ Limit f.which f.trace) }
{
    let first = state.first;
    match first {
        Some(first) => Failed::Limit {
            which: first.which,
            trace: first.trace,
        },
        None => Failed::Memory,
    }
}

/// What comes after a round that passed a limit. One that was begun anew ends in the limit that was passed first.
pub(crate) fn after_limit<'b>(
    alloc: Global,
    text: &Text<'_>,
    below: Option<&'b CompleteRules<'b>>,
    start: &RoundStart,
    state: Underway<'b>,
    passed: Passed,
) -> Result<Turn<'b>, Failed>
    requires wanted { AreWanted text.now.table.now text.now.world.now.lexicon start.now.all.items }
    requires flags { AreByItem (items_of text.now.table.now start.now.all.items) state.used.items }
    requires due { IsDueNow start.now.limits
        (plan_of text.now.world.now text.now.table.now (first_rules below) start.now) state }
    requires stops { Stops start.now.limits
        (plan_of text.now.world.now text.now.table.now (first_rules below) start.now)
        (chosen (items_of text.now.table.now start.now.all.items) state.used.items)
        passed.which passed.trace }
    ensures { MatchResult result
        (TurnsTo start.now.limits (plan_of text.now.world.now text.now.table.now
        (first_rules below.entry) start.now) state.entry
        (events (length (first_rules below.entry)) passed.trace))
        (FailsWith start.now.limits (plan_of text.now.world.now text.now.table.now
        (first_rules below.entry) start.now) state.entry
        (events (length (first_rules below.entry)) passed.trace)) }
{
    if state.first.is_none() {
        return after_first_limit(alloc, text, below, start, state, passed);
    }
    Err(first_limit(state))
}
