//! A completion from its first equation to its last pair.

ghost use Rattle.std.specs.Prelude.{◌≡◌, ◌+◌, ◌-◌, ◌<◌, ◌≤◌, ◌^◌, length, slice_get, Some, MatchResult};
ghost use Rattle.swreq_pair.specs.Pairs.{HasPair, IsNumberOf};
ghost use Rattle.swreq_complete.specs.{Limits.{EndsWithin}, Progress.{AreAllPlaces, SettlesPlace, UpTo}, declared.limit.Stop.TheVariants.{Memory}, Settling.{DoneWithin, Grown, HasCome, HasStopped, IsUnderway, StoppedAt}};

use crate::indexed::Indexed;
use crate::limit::{Limits, Stop};
use crate::settling::{settle_given, settle_sides};
use crate::task::{Sides, Task};
use std::alloc::Global;
use swreq_pair::write_sides_of;
use swreq_rule::{Birth, Place};
use swreq_trie::Found;
use swreq_watch::Watch;

// Settles the pair of two rules at the place.
fn settle_place<W: Watch>(
    rules: &mut Indexed<'_>,
    limits: Limits,
    watch: &mut W,
    place: Place,
    sides: &mut Sides,
) -> Result<(), Stop>
    requires few { length rules.old < 2 ^ 32 - 1 }
    requires pair { HasPair rules.old place }
    ensures { MatchResult result
        (λ _. DoneWithin limits (λ t. SettlesPlace rules.old t place) rules.old rules.new
        (W.told watch.old) (W.told watch.new))
        (λ s. StoppedAt limits (λ t. SettlesPlace rules.old t place) rules.old rules.new
        (W.told watch.old) (W.told watch.new) s) }
{
    let first = rules.rule(place.i as usize - 1);
    let second = rules.rule(place.j as usize - 1);
    write_sides_of(first, second, place.at, &mut sides.left, &mut sides.right)?;
    let birth = Birth::Pair(place.i, place.j, place.at);
    settle_sides(rules, limits, watch, birth, sides)
}

// Finds all places of pairs with this greater number, in order.
fn find_places(rules: &Indexed<'_>, greater: u32, found: &mut Found) -> Result<(), Stop>
    requires { IsNumberOf rules.now greater }
    ensures { MatchResult result (λ _. AreAllPlaces rules.now greater found.new) (λ s. s ≡ Memory) }
{
    let rule = rules.rule(greater as usize - 1);
    rules.find_overlaps(rule.left.symbols(), greater, found)?;
    Ok(())
}

// The place at this index, counted from 0.
fn place_at(places: &[Place], index: usize) -> Place
    requires { index < length places.now }
    ensures { slice_get places.now index ≡ Some result }
{
    places[index]
}

// Settles the pairs at these places, which are all with this greater number, in order.
fn settle_places<W: Watch>(
    task: &Task,
    rules: &mut Indexed<'_>,
    watch: &mut W,
    sides: &mut Sides,
    greater: u32,
    places: &[Place],
) -> Result<(), Stop>
    requires new { task.now.base < greater }
    requires in_range { greater ≤ length rules.old }
    requires all_places { AreAllPlaces rules.old greater places.now }
    requires so_far { IsUnderway task.now.limits task.now.base task.now.given.now
        rules.old (UpTo greater) }
    ensures { MatchResult result
        (λ _. HasCome task.now.limits task.now.base task.now.given.now
        (UpTo (greater + 1)) rules.old rules.new (W.told watch.old) (W.told watch.new))
        (λ s. HasStopped task.now.limits task.now.base task.now.given.now rules.old rules.new
        (W.told watch.old) (W.told watch.new) s) }
{
    for n in 0..places.len() {
        let place = place_at(places, n);
        settle_place(rules, task.limits, watch, place, sides)?;
    }
    Ok(())
}

// Settles the pairs with this greater number in order.
fn settle_greater<W: Watch>(
    task: &Task,
    rules: &mut Indexed<'_>,
    watch: &mut W,
    found: &mut Found,
    sides: &mut Sides,
    greater: u32,
) -> Result<(), Stop>
    requires new { task.now.base < greater }
    requires in_range { greater ≤ length rules.old }
    requires so_far { IsUnderway task.now.limits task.now.base task.now.given.now
        rules.old (UpTo greater) }
    ensures { MatchResult result
        (λ _. HasCome task.now.limits task.now.base task.now.given.now
        (UpTo (greater + 1)) rules.old rules.new (W.told watch.old) (W.told watch.new))
        (λ s. HasStopped task.now.limits task.now.base task.now.given.now rules.old rules.new
        (W.told watch.old) (W.told watch.new) s) }
{
    find_places(rules, greater, found)?;
    settle_places(task, rules, watch, sides, greater, found.places())
}

// Completes the rules, which are those of the base, by the equations.
pub(crate) fn complete<W: Watch>(
    alloc: Global,
    task: &Task,
    rules: &mut Indexed<'_>,
    watch: &mut W,
) -> Result<(), Stop>
    requires base_is { task.now.base ≡ length rules.old }
    requires base_fits { task.now.base < 2 ^ 32 - 1 }
    ensures { MatchResult result
        (λ _. EndsWithin task.now.limits task.now.base task.now.given.now rules.new
        × Grown rules.old rules.new (W.told watch.old) (W.told watch.new))
        (λ s. HasStopped task.now.limits task.now.base task.now.given.now rules.old rules.new
        (W.told watch.old) (W.told watch.new) s) }
{
    let mut sides = Sides::new(alloc);
    let mut found = Found::new(alloc);
    settle_given(task, rules, watch, &mut sides)?;
    let mut greater: u32 = task.base as u32 + 1;
    'greater: while greater as usize <= rules.count() {
        settle_greater(task, rules, watch, &mut found, &mut sides, greater)?;
        greater += 1;
    }
    Ok(())
}
