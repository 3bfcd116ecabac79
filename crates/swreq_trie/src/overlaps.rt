//! The places at which a new side and a stored one overlap, or one stands in the other.

ghost use Rattle.std.specs.{Prelude.{◌≡◌, ℕ, ◌+◌, ◌<◌, ◌≤◌, ◌++◌, ◌∷◌, [], length, OnOk}, Bool.{Decides}};
ghost use Rattle.swreq_trie.specs.{declared.spots.Spot.{Spot}, declared.walk.Met.{Met}, Marks.{Holds, IsListed}, Stored.{NoneEmpty}, Places.{IsFrom, IsOnto, IsPlace, Meets}, Keys.{Gains, IsBeginKey, IsEnded, IsFromKey, IsInsideKey, IsOwnKey, MeetsAt, place_of}};

use crate::spots::{Spot, spots_of};
use crate::walk::{Met, end_of, find_met};
use crate::{Entry, Trie};
use std::alloc::AllocError;
use swreq_rule::word::Symbol;
use swreq_rule::{contains, overlaps};

// The numbers of two rules and a place.
pub(crate) type Key = (u32, u32, usize);

// Whether the first word overlaps the second at the place, or the second stands in the first there.
fn meets(l: &[Symbol], m: &[Symbol], at: usize) -> bool
    ensures { Decides result (Meets l.now m.now at) }
{
    if overlaps(l, m, at) {
        return true;
    }
    contains(l, m, at)
}

// Puts the key last.
fn push(keys: &mut Vec<Key>, key: Key) -> Result<(), AllocError>
    ensures { OnOk result (Gains (λ k. k ≡ key) keys.old.items keys.new.items) }
{
    keys.push(key)?;
    Ok(())
}

// Adds the place at the start of the side of the spot, where its number is below this one.
fn add_begin(spot: Spot, number: u32, keys: &mut Vec<Key>) -> Result<(), AllocError>
    ensures { OnOk result (Gains (IsBeginKey number spot) keys.old.items keys.new.items) }
{
    if spot.number < number {
        push(keys, (spot.number, number, 0))
    } else {
        Ok(())
    }
}

// Adds the places at the starts of the sides of these spots.
fn add_begins(spots: &[Spot], number: u32, keys: &mut Vec<Key>) -> Result<(), AllocError>
    ensures { OnOk result (Gains (λ key. (spot : Spot) × Holds spots.now spot
        × IsBeginKey number spot key) keys.old.items keys.new.items) }
{
    for spot in spots {
        add_begin(*spot, number, keys)?;
    }
    Ok(())
}

// Whether the side of the spot, which has the first symbol of the new one there, and the new one have a pair there. The words are
// compared only where the side goes on after this symbol.
fn meets_at(entries: &[Entry], spot: Spot, left: &[Symbol]) -> bool
    ensures { Decides result (MeetsAt entries.now left.now spot) }
{
    if spot.rest == 1 {
        return true;
    }
    if entries.len() <= spot.side {
        return false;
    }
    let entry = &entries[spot.side];
    meets(entry.left.symbols(), left, spot.at)
}

// Adds the place of the spot, if its side and the new one have a pair there.
fn add_inside(
    entries: &[Entry],
    spot: Spot,
    left: &[Symbol],
    number: u32,
    keys: &mut Vec<Key>,
) -> Result<(), AllocError>
    ensures { OnOk result
        (Gains (IsInsideKey entries.now left.now number spot) keys.old.items keys.new.items) }
{
    if number <= spot.number {
        return Ok(());
    }
    if meets_at(entries, spot, left) {
        push(keys, (spot.number, number, spot.at))
    } else {
        Ok(())
    }
}

// Adds the places of the spots at which their sides and the new one have pairs.
fn add_insides(
    entries: &[Entry],
    spots: &[Spot],
    left: &[Symbol],
    number: u32,
    keys: &mut Vec<Key>,
) -> Result<(), AllocError>
    ensures { OnOk result (Gains
        (λ key.
        (spot : Spot) × Holds spots.now spot × IsInsideKey entries.now left.now number spot key)
        keys.old.items keys.new.items) }
{
    for spot in spots {
        add_inside(entries, *spot, left, number, keys)?;
    }
    Ok(())
}

// Whether the side of the spot ends after `depth` symbols, or the new side does, and the place is past its start.
fn is_ended(spot: Spot, at: usize, long: usize, depth: usize) -> bool
    requires { at ≤ long }
    ensures { Decides result (IsEnded at long depth spot) }
{
    if spot.rest == depth {
        return true;
    }
    if at == 0 {
        return false;
    }
    depth == long - at
}

// Adds the place in the new side, if the side of the spot, which stands there so far, has a pair with it there.
fn add_from_one(
    spot: Spot,
    number: u32,
    at: usize,
    long: usize,
    depth: usize,
    keys: &mut Vec<Key>,
) -> Result<(), AllocError>
    requires { at ≤ long }
    ensures { OnOk result
        (Gains (IsFromKey number at long depth spot) keys.old.items keys.new.items) }
{
    if number <= spot.number {
        return Ok(());
    }
    if is_ended(spot, at, long, depth) {
        push(keys, (number, spot.number, at))
    } else {
        Ok(())
    }
}

// Adds the place in the new side for each of these spots of a node.
fn add_from(
    spots: &[Spot],
    number: u32,
    at: usize,
    long: usize,
    depth: usize,
    keys: &mut Vec<Key>,
) -> Result<(), AllocError>
    requires { at ≤ long }
    ensures { OnOk result (Gains
        (λ key. (spot : Spot) × Holds spots.now spot × IsFromKey number at long depth spot key)
        keys.old.items keys.new.items) }
{
    for spot in spots {
        add_from_one(*spot, number, at, long, depth, keys)?;
    }
    Ok(())
}

// Adds the place in the new side for the spots of these nodes.
fn add_from_nodes(
    lists: &[Vec<Spot>],
    nodes: &[Met],
    number: u32,
    at: usize,
    long: usize,
    keys: &mut Vec<Key>,
) -> Result<(), AllocError>
    requires { at ≤ long }
    ensures { OnOk result (Gains
        (λ key. (met : Met) × Holds nodes.now met × ((spot : Spot)
        × IsListed lists.now met.node spot × IsFromKey number at long met.depth spot key))
        keys.old.items keys.new.items) }
{
    for met in nodes {
        add_from(spots_of(lists, met.node), number, at, long, met.depth, keys)?;
    }
    Ok(())
}

// Adds the place, if the new side overlaps itself there.
fn add_own_one(
    left: &[Symbol],
    at: usize,
    number: u32,
    keys: &mut Vec<Key>,
) -> Result<(), AllocError>
    ensures { OnOk result (Gains (IsOwnKey left.now number at) keys.old.items keys.new.items) }
{
    if overlaps(left, left, at) {
        push(keys, (number, number, at))
    } else {
        Ok(())
    }
}

// Adds all places at which the new side overlaps itself.
fn add_all_own(left: &[Symbol], number: u32, keys: &mut Vec<Key>) -> Result<(), AllocError>
    ensures { OnOk result (Gains
        (λ key. (at : ℕ) × (at < length left.now) × IsOwnKey left.now number at key)
        keys.old.items keys.new.items) }
{
    for at in 0..left.len() {
        add_own_one(left, at, number, keys)?;
    }
    Ok(())
}

impl Trie {
    // Adds the places at the starts of stored sides in which the new one stands there.
    fn add_onto_begins(
        &self,
        left: &[Symbol],
        number: u32,
        keys: &mut Vec<Key>,
    ) -> Result<(), AllocError>
        requires { 0 < length left.now }
        ensures gains { OnOk result (Gains
            (λ key. (k : ℕ) × IsOnto self.now left.now number k 0 (place_of key))
            keys.old.items keys.new.items) }
        ensures some { NoneEmpty self.now }
    {
        match end_of(&self.edges, left) {
            None => Ok(()),
            Some(node) => add_begins(spots_of(&self.passing, node), number, keys),
        }
    }

    // Adds the places within stored sides, past their starts, at which they and the new one have pairs.
    fn add_onto_insides(
        &self,
        left: &[Symbol],
        number: u32,
        keys: &mut Vec<Key>,
    ) -> Result<(), AllocError>
        requires { 0 < length left.now }
        ensures { OnOk result (Gains
            (λ key.
            (k : ℕ) × (at : ℕ) × (0 < at) × IsOnto self.now left.now number k at (place_of key))
            keys.old.items keys.new.items) }
    {
        match self.edges.child(0, left[0]) {
            None => Ok(()),
            Some(node) => add_insides(
                &self.entries,
                spots_of(&self.inside, node),
                left,
                number,
                keys,
            ),
        }
    }

    // Adds the place in the new side for each stored one with which it has a pair there.
    fn add_from_at(
        &self,
        left: &[Symbol],
        at: usize,
        number: u32,
        nodes: &mut Vec<Met>,
        keys: &mut Vec<Key>,
    ) -> Result<(), AllocError>
        requires { at < length left.now }
        ensures { OnOk result (Gains
            (λ key. (k : ℕ) × IsFrom self.now left.now number k at (place_of key))
            keys.old.items keys.new.items) }
    {
        find_met(&self.edges, &self.ends, &left[at..], nodes)?;
        add_from_nodes(&self.passing, nodes, number, at, left.len(), keys)
    }

    // Adds all places in the new side at which it and stored ones have pairs.
    fn add_all_from(
        &self,
        left: &[Symbol],
        number: u32,
        nodes: &mut Vec<Met>,
        keys: &mut Vec<Key>,
    ) -> Result<(), AllocError>
        ensures { OnOk result (Gains
            (λ key. (at : ℕ) × (at < length left.now)
            × ((k : ℕ) × IsFrom self.now left.now number k at (place_of key)))
            keys.old.items keys.new.items) }
    {
        for at in 0..left.len() {
            self.add_from_at(left, at, number, nodes, keys)?;
        }
        Ok(())
    }

    // Adds the keys of all places of the pairs of the new side with the stored ones that have a number below its own, and with itself.
    pub(crate) fn add_all(
        &self,
        left: &[Symbol],
        number: u32,
        nodes: &mut Vec<Met>,
        keys: &mut Vec<Key>,
    ) -> Result<(), AllocError>
        requires { 0 < length left.now }
        ensures { OnOk result (Gains (λ key. IsPlace self.now left.now number (place_of key))
            keys.old.items keys.new.items) }
    {
        self.add_onto_begins(left, number, keys)?;
        self.add_onto_insides(left, number, keys)?;
        self.add_all_from(left, number, nodes, keys)?;
        add_all_own(left, number, keys)
    }

    // Puts these keys in place of those that were there.
    pub(crate) fn collect(
        &self,
        left: &[Symbol],
        number: u32,
        nodes: &mut Vec<Met>,
        keys: &mut Vec<Key>,
    ) -> Result<(), AllocError>
        requires { 0 < length left.now }
        ensures { OnOk result
            (Gains (λ key. IsPlace self.now left.now number (place_of key)) [] keys.new.items) }
    {
        keys.clear();
        self.add_all(left, number, nodes, keys)
    }
}
