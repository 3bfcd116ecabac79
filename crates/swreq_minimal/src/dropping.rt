//! What is left of generators, where from the last to the first each is dropped that is derivable from the others.
ghost use Rattle.std.specs.Prelude.{◌≡◌, ◌<◌, ◌≤◌, [], ◌∷◌, ◌++◌, List, length, drop, remove, suc, take, IfOk, IfSome, OnOk};
ghost use Rattle.swreq_machine.specs.swreq_derive.{declared.requirements.Requirement.{Requirement}, Derivation.{TermRequirement}};
ghost use Rattle.swreq_candidates.specs.swreq_canonical.Minimised.{Leaves};
ghost use Rattle.swreq_list_rules.specs.Settings.{AreKnownIn, facts_in, params_in, said_in};
ghost use Rattle.swreq_minimal.specs.{Halves.{AreOutsideBoth, IsHalfOver, IsSpanOver, outside_span}, Lists.{AreRulesFor, GoesThrough, TellsWithout}, Passed.{IsLastNeeded, IsLeftWithout}, Told.{Tells, TellsOfList}};

use crate::derivable::is_derivable;
use crate::extending::{cloned, extended_if_any, rules_of};
use std::alloc::{AllocError, Global};
use swreq_list_rules::{ListRules, Setting};
use swreq_machine::complete::Failed;
use swreq_machine::derive::Requirement;
use swreq_machine::watch::Watch;

/// Drops the requirement at a place, if it is derivable from the others, of which these are the rules where there are any.
fn drop_at<W: Watch>(
    alloc: Global,
    setting: &Setting<'_>,
    rules: Option<&ListRules<'_>>,
    left: &mut Vec<Requirement>,
    place: usize,
    watch: &mut W,
) -> Result<(), Failed>
    requires rules { IfSome rules (λ rules. AreRulesFor setting.now
        (remove left.old.items place) rules.now) }
    requires left { AreKnownIn setting.now left.old.items }
    requires place { place < length left.old.items }
    ensures leaves { OnOk result ((front behind out : List TermRequirement) (r : TermRequirement)
        → said_in setting.now left.old.items ≡ front ++ r ∷ out → length front ≡ place
        → Leaves (facts_in setting.now) (params_in setting.now) (front ++ r ∷ []) behind out
        → (more : List TermRequirement) × (said_in setting.now left.new.items ≡ front ++ more)
        × Leaves (facts_in setting.now) (params_in setting.now) front (r ∷ behind) more) }
    ensures stays { OnOk result ((kept : List Requirement)
        × (left.new.items ≡ take place left.old.items
        ++ (kept ++ drop (suc place) left.old.items))) }
    ensures known { OnOk result (AreKnownIn setting.now left.new.items) }
    ensures tells { TellsOfList setting.now (remove left.old.items place) result
        (W.told watch.old) (W.told watch.new) }
{
    let one = left.remove(place);
    let derivable = is_derivable(alloc, setting, rules, left, one, watch)?;
    if derivable {
        return Ok(());
    }
    left.insert(place, one).map_err(|_| Failed::Memory)?;
    Ok(())
}

/// The places from one on up to another.
#[derive(Clone, Copy)]
struct Span {
    from: usize,
    to: usize,
}

/// A half of a span, and where the other half stands.
#[derive(Clone, Copy)]
struct Half {
    span: Span,
    other: Span,
}

/// Drops those at the end of a span that are derivable from the requirements outside it, of which these are the rules: from the last on, up to
/// the first that is not, or to the one with which the span begins. Gives where the span then ends.
fn drop_end(
    alloc: Global,
    setting: &Setting<'_>,
    rules: &ListRules<'_>,
    left: &mut Vec<Requirement>,
    span: Span,
) -> Result<usize, AllocError>
    requires rules { AreRulesFor setting.now (outside_span left.old.items span) rules.now }
    requires left { IsSpanOver setting.now left.old.items span }
    ensures within { IfOk result (λ to. (span.from < to) × (to ≤ span.to)) }
    ensures stays { IfOk result (λ to. left.new.items
        ≡ take to left.old.items ++ drop span.to left.old.items) }
    ensures leaves { IfOk result (λ to. GoesThrough setting.now to span.to
        left.old.items left.new.items) }
    ensures known { OnOk result (AreKnownIn setting.now left.new.items) }
{
    let mut to = span.to;
    while to - span.from > 1 {
        let derivable = rules.derives(alloc, setting, left[to - 1])?;
        if !derivable {
            return Ok(to);
        }
        to -= 1;
        left.remove(to);
    }
    Ok(to)
}

/// Drops those at the end of a span as `drop_end` does, where there are rules. Where there are none, the span ends where it did.
fn drop_end_by(
    alloc: Global,
    setting: &Setting<'_>,
    rules: Option<&ListRules<'_>>,
    left: &mut Vec<Requirement>,
    span: Span,
) -> Result<usize, AllocError>
    requires rules { IfSome rules (λ rules. AreRulesFor setting.now
        (outside_span left.old.items span) rules.now) }
    requires left { IsSpanOver setting.now left.old.items span }
    ensures within { IfOk result (λ to. (span.from < to) × (to ≤ span.to)) }
    ensures stays { IfOk result (λ to. left.new.items
        ≡ take to left.old.items ++ drop span.to left.old.items) }
    ensures leaves { IfOk result (λ to. GoesThrough setting.now to span.to
        left.old.items left.new.items) }
    ensures known { OnOk result (AreKnownIn setting.now left.new.items) }
{
    match rules {
        None => Ok(span.to),
        Some(rules) => drop_end(alloc, setting, rules, left, span),
    }
}

/// Goes through the requirements of a half from the last to the first, as `drop_in` does. The rules are those of the requirements outside both
/// halves, where there are any.
#[cycle(halves)]
fn drop_half<W: Watch>(
    alloc: Global,
    setting: &Setting<'_>,
    rules: Option<ListRules<'_>>,
    left: &mut Vec<Requirement>,
    half: Half,
    watch: &mut W,
) -> Result<(), Failed>
    requires rules { IfSome rules (AreOutsideBoth setting.now left.old.items half) }
    requires half { IsHalfOver setting.now left.old.items half }
    ensures leaves { OnOk result (GoesThrough setting.now half.span.from half.span.to
        left.old.items left.new.items) }
    ensures stays { OnOk result ((kept : List Requirement)
        × (left.new.items ≡ take half.span.from left.old.items
        ++ (kept ++ drop half.span.to left.old.items))) }
    ensures known { OnOk result (AreKnownIn setting.now left.new.items) }
    ensures tells { TellsWithout setting.now half.span.to left.old.items result
        (W.told watch.old) (W.told watch.new) }
{
    let more = &left[half.other.from..half.other.to];
    let extended = extended_if_any(alloc, setting, rules, more)?;
    drop_in(alloc, setting, extended, left, half.span, watch)
}

/// Goes through the requirements of a span from the last to the first, and drops each that is derivable from the others that are then left.
/// The rules are those of the requirements outside the span, where there are any. Those at its end that are derivable by these are dropped
/// first, before any rules grow.
#[cycle(halves)]
fn drop_in<W: Watch>(
    alloc: Global,
    setting: &Setting<'_>,
    rules: Option<ListRules<'_>>,
    left: &mut Vec<Requirement>,
    span: Span,
    watch: &mut W,
) -> Result<(), Failed>
    requires rules { IfSome rules (AreRulesFor setting.now (outside_span left.old.items span)) }
    requires left { IsSpanOver setting.now left.old.items span }
    ensures leaves { OnOk result (GoesThrough setting.now span.from span.to
        left.old.items left.new.items) }
    ensures stays { OnOk result ((kept : List Requirement)
        × (left.new.items ≡ take span.from left.old.items
        ++ (kept ++ drop span.to left.old.items))) }
    ensures known { OnOk result (AreKnownIn setting.now left.new.items) }
    ensures tells { TellsWithout setting.now span.to left.old.items result
        (W.told watch.old) (W.told watch.new) }
{
    let to = drop_end_by(alloc, setting, rules.as_ref(), left, span)?;
    let rest = Span {
        from: span.from,
        to,
    };
    drop_halves(alloc, setting, rules, left, rest, watch)
}

/// Goes through the requirements of a span as `drop_in` does, by halves: each half with the rules to which the other half was added.
#[cycle(halves)]
fn drop_halves<W: Watch>(
    alloc: Global,
    setting: &Setting<'_>,
    rules: Option<ListRules<'_>>,
    left: &mut Vec<Requirement>,
    span: Span,
    watch: &mut W,
) -> Result<(), Failed>
    requires rules { IfSome rules (AreRulesFor setting.now (outside_span left.old.items span)) }
    requires left { IsSpanOver setting.now left.old.items span }
    ensures leaves { OnOk result (GoesThrough setting.now span.from span.to
        left.old.items left.new.items) }
    ensures stays { OnOk result ((kept : List Requirement)
        × (left.new.items ≡ take span.from left.old.items
        ++ (kept ++ drop span.to left.old.items))) }
    ensures known { OnOk result (AreKnownIn setting.now left.new.items) }
    ensures tells { TellsWithout setting.now span.to left.old.items result
        (W.told watch.old) (W.told watch.new) }
{
    let middle = span.from + (span.to - span.from) / 2;
    if middle == span.from {
        return drop_at(alloc, setting, rules.as_ref(), left, span.from, watch);
    }
    let after = left.len() - span.to;
    let first = Span {
        from: span.from,
        to: middle,
    };
    let second = Span {
        from: middle,
        to: span.to,
    };
    let last_half = Half {
        span: second,
        other: first,
    };
    let same = cloned(alloc, rules.as_ref())?;
    drop_half(alloc, setting, same, left, last_half, watch)?;
    let kept = Span {
        from: middle,
        to: left.len() - after,
    };
    let first_half = Half {
        span: first,
        other: kept,
    };
    drop_half(alloc, setting, rules, left, first_half, watch)
}

/// Goes through the requirements from the last to the first, and drops each that is derivable from the others that are then left. The last is
/// known not to be.
pub(crate) fn drop_derivable<W: Watch>(
    alloc: Global,
    setting: &Setting<'_>,
    left: &mut Vec<Requirement>,
    watch: &mut W,
) -> Result<(), Failed>
    requires left { AreKnownIn setting.now left.old.items }
    requires last { IsLastNeeded (facts_in setting.now) (params_in setting.now)
        (said_in setting.now left.old.items) }
    ensures leaves { OnOk result (Leaves (facts_in setting.now) (params_in setting.now) []
        (said_in setting.now left.old.items) (said_in setting.now left.new.items)) }
    ensures known { OnOk result (AreKnownIn setting.now left.new.items) }
    ensures tells { Tells setting.now (IsLeftWithout (facts_in setting.now) (params_in setting.now)
        (said_in setting.now left.old.items)) result (W.told watch.old) (W.told watch.new) }
{
    let last = left.len().saturating_sub(1);
    if last == 0 {
        return Ok(());
    }
    let rules = rules_of(alloc, setting, &left[last..])?;
    let span = Span { from: 0, to: last };
    drop_in(alloc, setting, rules, left, span, watch)
}
