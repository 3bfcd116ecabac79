//! The search for a rule that a loop shows.

ghost use Rattle.std.specs.{Prelude.{◌≡◌, ℕ, ◌<◌, length, IfOk, MatchOption}, Bool.{Decides}};
ghost use Rattle.swreq_path.specs.Paths.{IsLoop};
ghost use Rattle.swreq_homotopy.specs.{Evidence.{AreLoops, AreOfOthers, DoesWithout, IsEvidence, IsMarked, NoneShown, Shows}, Search.{NoneShows, ShowsAt}};

use crate::Evidence;
use crate::around::round_from;
use std::alloc::{AllocError, Global};
use swreq_path::{Loop, RewriteStep};
use swreq_rule::Rule;

// Whether the rule with this number is marked.
fn is_marked(marks: &[bool], number: u32) -> bool
    ensures { Decides result (IsMarked marks.now number) }
{
    if number == 0 {
        return false;
    }
    let k = number as usize - 1;
    if marks.len() <= k {
        return false;
    }
    marks[k]
}

// Whether each of the steps is of a kept rule other than this one.
fn are_of_others(keep: &[bool], number: u32, steps: &[RewriteStep]) -> bool
    ensures { Decides result (AreOfOthers keep.now number steps.now) }
{
    for k in 0..steps.len() {
        let step = &steps[k];
        if step.rule == number {
            return false;
        }
        if !is_marked(keep, step.rule) {
            return false;
        }
    }
    true
}

// Whether the step at the place shows its rule.
fn shows_at(keep: &[bool], may: &[bool], steps: &[RewriteStep], at: usize) -> bool
    requires { at < length steps.now }
    ensures { Decides result (ShowsAt keep.now may.now steps.now at) }
{
    let step = &steps[at];
    if !step.before.symbols().is_empty() {
        return false;
    }
    if !step.after.symbols().is_empty() {
        return false;
    }
    if !is_marked(keep, step.rule) {
        return false;
    }
    if !is_marked(may, step.rule) {
        return false;
    }
    if !are_of_others(keep, step.rule, &steps[..at]) {
        return false;
    }
    are_of_others(keep, step.rule, &steps[at + 1..])
}

// The first place at which a step shows its rule.
fn place_in(keep: &[bool], may: &[bool], steps: &[RewriteStep]) -> Option<usize>
    ensures { MatchOption result (NoneShows keep.now may.now steps.now)
        (ShowsAt keep.now may.now steps.now) }
{
    for at in 0..steps.len() {
        if shows_at(keep, may, steps, at) {
            return Some(at);
        }
    }
    None
}

// Evidence of a rule that the loop shows, or None where it shows none.
fn shown_by(
    alloc: Global,
    rules: &[Rule],
    round: &Loop,
    keep: &[bool],
    may: &[bool],
) -> Result<Option<Evidence>, AllocError>
    requires { IsLoop rules.now round.now }
    ensures { IfOk result (λ found. MatchOption found
        ((n : ℕ) → Shows keep.now may.now round.now n → ⊥)
        (λ evidence.
        Shows keep.now may.now round.now evidence.rule × DoesWithout rules.now keep.now evidence)) }
{
    match place_in(keep, may, round.path.steps.items()) {
        Some(at) => Ok(Some(round_from(alloc, rules, round, at)?)),
        None => Ok(None),
    }
}

/// Evidence of a rule that some of the loops shows: a path from its left side to its right side by kept rules other than it. None where
/// no loop shows a rule.
///
/// A loop shows a rule that is kept and may go, where it has a step of the rule with nothing before and nothing after its side, and all
/// its other steps are of other kept rules.
pub fn redundant(
    alloc: Global,
    rules: &[Rule],
    loops: &[Loop],
    keep: &[bool],
    may: &[bool],
) -> Result<Option<Evidence>, AllocError>
    requires keep { length keep.now ≡ length rules.now }
    requires may { length may.now ≡ length rules.now }
    requires loops { AreLoops rules.now loops.now }
    ensures { IfOk result (λ found. MatchOption found
        (NoneShown keep.now may.now loops.now)
        (IsEvidence rules.now keep.now may.now loops.now)) }
{
    for k in 0..loops.len() {
        let round = &loops[k];
        if let Some(evidence) = shown_by(alloc, rules, round, keep, may)? {
            return Ok(Some(evidence));
        }
    }
    Ok(None)
}
