//! Reduction that searches a place again only where a step changed what the search there had read.

ghost use Rattle.std.specs.{Prelude.{◌≡◌, ℕ, ◌+◌, ◌<◌, ◌≤◌, length, slice_get, Some, MatchOption, IfOk, OnOk}, Bool.{OnFalse, OnTrue}};
ghost use Rattle.swreq_rule.specs.swreq_word.Relations.{IsIrreducible};
ghost use Rattle.swreq_rule.specs.{Reduction.{FirstRedex, ReductionStep, Reduces}, Steps.{Step}};
ghost use Rattle.swreq_complete.specs.Reading.{AreRead, AreRising, TellNone};

use crate::indexed::Indexed;
use std::alloc::AllocError;
use swreq_rule::word::Symbol;
use swreq_rule::{Redex, take_step_of};

// The count, or the last of these where that is greater.
fn no_less(counts: &[usize], count: usize) -> usize
    requires { AreRising counts.now }
    ensures count { count ≤ result }
    ensures counts { (k n : ℕ) → slice_get counts.now k ≡ Some n → n ≤ result }
{
    if counts.len() == 0 {
        return count;
    }
    count.max(counts[counts.len() - 1])
}

// Adds the count of the next place.
fn add(
    rules: &Indexed<'_>,
    word: &[Symbol],
    counts: &mut Vec<usize>,
    count: usize,
) -> Result<(), AllocError>
    requires tells { TellNone rules.now word.now (length counts.old.items) count }
    requires so_far { AreRead rules.now word.now counts.old.items }
    ensures read { OnOk result (AreRead rules.now word.now counts.new.items) }
    ensures one { OnOk result (length counts.new.items ≡ length counts.old.items + 1) }
{
    let next = no_less(counts, count);
    counts.push(next)?;
    Ok(())
}

// How many of the counts, from the first on, are no greater than the place.
fn count_within(counts: &[usize], at: usize) -> usize
    requires { AreRising counts.now }
    ensures { (k n : ℕ) → k < result → slice_get counts.now k ≡ Some n → n ≤ at }
{
    let mut kept = counts.len();
    'back: while 0 < kept {
        if counts[kept - 1] <= at {
            return kept;
        }
        kept -= 1;
    }
    0
}

// The first redex. The search begins at the first place that has no count, and adds those of the places where no left side begins.
fn next_redex(
    rules: &Indexed<'_>,
    word: &[Symbol],
    counts: &mut Vec<usize>,
) -> Result<Option<Redex>, AllocError>
    requires { AreRead rules.now word.now counts.old.items }
    ensures redex { IfOk result (λ found. MatchOption found
        (IsIrreducible (Step rules.now) word.now)
        (λ redex. FirstRedex rules.now word.now redex.at redex.number)) }
    ensures read { OnOk result (AreRead rules.now word.now counts.new.items) }
{
    for at in counts.len()..word.len() {
        match rules.find_at(word, at) {
            Ok(number) => {
                let number = number as usize;
                return Ok(Some(Redex { at, number }));
            }
            Err(count) => add(rules, word, counts, count)?,
        }
    }
    Ok(None)
}

// Takes the next step of reduction, or answers false where no left side stands in the word. The counts of the places that were read past
// the place of the step are taken away.
fn take_next_step(
    rules: &Indexed<'_>,
    word: &mut Vec<Symbol>,
    counts: &mut Vec<usize>,
) -> Result<bool, AllocError>
    requires { AreRead rules.now word.old.items counts.old.items }
    ensures step { IfOk result
        (λ goes. OnTrue goes (ReductionStep rules.now word.old.items word.new.items)) }
    ensures read { OnOk result (AreRead rules.now word.new.items counts.new.items) }
    ensures end { IfOk result (λ goes. OnFalse goes
        ((word.new.items ≡ word.old.items) × IsIrreducible (Step rules.now) word.new.items)) }
{
    match next_redex(rules, word, counts)? {
        None => Ok(false),
        Some(redex) => {
            take_step_of(rules.rule(redex.number - 1), word, redex.at);
            counts.truncate(count_within(counts, redex.at));
            Ok(true)
        }
    }
}

/// Reduces the word, with room for a count of each of its places.
pub(crate) fn reduce(
    rules: &Indexed<'_>,
    word: &mut Vec<Symbol>,
    counts: &mut Vec<usize>,
) -> Result<(), AllocError>
    ensures { OnOk result (Reduces rules.now word.old.items word.new.items) }
{
    counts.clear();
    'steps: while take_next_step(rules, word, counts)? {}
    Ok(())
}
