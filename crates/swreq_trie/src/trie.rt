//! Stored left sides of rules by their symbols.

ghost use Rattle.std.specs.Prelude.{◌≡◌, ◌<◌, ◌≤◌, [], ◌∷◌, ◌++◌, length, drop, MatchResult, IfOk, OnOk, OnErr};
ghost use Rattle.swreq_trie.specs.{Places.{ArePlaces}, Stored.{NoneLonger, Shortest, TellNone}};

use crate::edges::Edges;
use crate::ends::mark;
use crate::found::Found;
use crate::lengths::Lengths;
use crate::ordered::write_places;
use crate::overlaps::Key;
use crate::spots::{Spot, copy_lists, forget};
use crate::walk::{Met, Side, find, make_way};
use std::alloc::{AllocError, Global};
use std::marker::Model;
use swreq_rule::Place;
use swreq_rule::word::{Symbol, Word};

/// A left side with the number of its rule.
#[derive(Debug, Drop)]
pub struct Entry {
    pub left: Word,
    pub number: u32,
}

/// Stored left sides with their numbers, in the order in which they came.
#[derive(Drop)]
pub struct Trie {
    alloc: Global,
    pub(crate) entries: Vec<Entry>,
    // Lead along each side, and from the root by each symbol of one.
    pub(crate) edges: Edges,
    // The number of the first side that ends at each node.
    pub(crate) ends: Vec<Option<u32>>,
    // The sides on whose way each node lies.
    pub(crate) passing: Vec<Vec<Spot>>,
    // At each node to which one symbol leads from the root, the places past the starts of sides at which this symbol stands.
    pub(crate) inside: Vec<Vec<Spot>>,
    // No side is shorter or longer than these.
    lengths: Lengths,
}

impl Model for Trie {
    ghost use Rattle.std.specs.Prelude.{List};
    ghost use Rattle.swreq_trie.specs.{declared.trie.Entry.{Entry}, Index.{IsIndex}};

    ghost Value = { List Entry };

    ghost view = { λ t. t.entries.items };

    ghost invariant = { λ t. IsIndex t.edges t.ends.items t.passing.items t.inside.items t.lengths t.entries.items };
}

// The same entries once more.
fn copy_entries(alloc: Global, entries: &[Entry]) -> Result<Vec<Entry>, AllocError>
    ensures { IfOk result (λ copies. copies.items ≡ entries.now) }
{
    let mut copies: Vec<Entry> = Vec::with_capacity(alloc, entries.len())?;
    for entry in entries {
        let left = entry.left.clone()?;
        copies.push(Entry {
            left,
            number: entry.number,
        })?;
    }
    Ok(copies)
}

impl Trie {
    /// A trie that stores nothing, which takes no memory.
    pub fn new(alloc: Global) -> Trie
        ensures { result ≡ [] }
    {
        Trie {
            alloc,
            entries: Vec::new(alloc),
            edges: Edges::new(alloc),
            ends: Vec::new(alloc),
            passing: Vec::new(alloc),
            inside: Vec::new(alloc),
            lengths: Lengths::of_none(),
        }
    }

    /// The stored sides with their numbers, in the order in which they came.
    pub fn entries(&self) -> &[Entry]
        ensures { result.now ≡ self.now }
    {
        &self.entries
    }

    /// A length that no stored side passes.
    pub fn longest(&self) -> usize
        ensures { NoneLonger self.now result }
    {
        self.lengths.longest
    }

    /// The same sides once more.
    pub fn copy(&self, alloc: Global) -> Result<Trie, AllocError>
        ensures { IfOk result (λ copy. copy ≡ self.now) }
    {
        let entries = copy_entries(alloc, &self.entries)?;
        let edges = self.edges.copy(alloc)?;
        let ends = Vec::from_slice(alloc, &self.ends)?;
        let passing = copy_lists(alloc, &self.passing)?;
        let inside = copy_lists(alloc, &self.inside)?;
        Ok(Trie {
            alloc,
            entries,
            edges,
            ends,
            passing,
            inside,
            lengths: self.lengths,
        })
    }

    /// Stores the side with the number, as the last one. If memory runs out, all is as before.
    pub fn insert(&mut self, left: &[Symbol], number: u32) -> Result<(), AllocError>
        requires { 0 < length left.now }
        ensures ok { OnOk result
            (self.new ≡ self.old ++ (record { left = left.now; number = number }) ∷ []) }
        ensures err { OnErr result (self.new ≡ self.old) }
    {
        let index = self.entries.len();
        let word = Word::new(Vec::from_slice(self.alloc, left)?);
        self.entries.push(Entry { left: word, number })?;
        match make_way(
            self.alloc,
            &mut self.edges,
            &mut self.ends,
            &mut self.passing,
            &mut self.inside,
            &Side {
                index,
                number,
                left,
            },
        ) {
            Ok(node) => {
                mark(&mut self.ends, node, number);
                self.lengths = self.lengths.with(left.len());
                Ok(())
            }
            Err(_) => {
                let _entry = self.entries.pop();
                forget(&mut self.passing, index);
                forget(&mut self.inside, index);
                Err(AllocError)
            }
        }
    }

    /// The number of the shortest stored side that begins at the place, and of several that are the same, of the first. Where none begins
    /// there, a number of first symbols of the word that tell so, which may be more than needed, or than the word has.
    pub fn find_at(&self, w: &[Symbol], at: usize) -> Result<u32, usize>
        requires { at ≤ length w.now }
        ensures { MatchResult result (λ number. Shortest self.now (drop at w.now) number)
            (λ count. TellNone self.now w.now at count) }
    {
        let rest = &w[at..];
        if rest.len() < self.lengths.shortest {
            return Err(w.len() + 1);
        }
        match find(&self.edges, &self.ends, rest) {
            Ok(number) => Ok(number),
            Err(count) => Err(at + count),
        }
    }

    /// All places of the pairs of the rule that has this side and number with the stored ones whose number is below it, and with itself,
    /// in the order of places.
    pub fn overlaps(
        &self,
        alloc: Global,
        left: &[Symbol],
        number: u32,
    ) -> Result<Vec<Place>, AllocError>
        requires { 0 < length left.now }
        ensures { IfOk result (λ v. ArePlaces self.now left.now number v.items) }
    {
        let mut nodes: Vec<Met> = Vec::new(alloc);
        let mut keys: Vec<Key> = Vec::new(alloc);
        let mut places: Vec<Place> = Vec::new(alloc);
        self.write_overlaps(left, number, &mut nodes, &mut keys, &mut places)?;
        Ok(places)
    }

    /// Finds the same places, in room that is kept from one rule to the next. If memory runs out, it is not said which places are there,
    /// and the next call starts afresh.
    pub fn find_overlaps(
        &self,
        left: &[Symbol],
        number: u32,
        found: &mut Found,
    ) -> Result<(), AllocError>
        requires { 0 < length left.now }
        ensures { OnOk result (ArePlaces self.now left.now number found.new) }
    {
        self.write_overlaps(
            left,
            number,
            &mut found.nodes,
            &mut found.keys,
            &mut found.places,
        )
    }

    /// Finds the places of the pairs with the sides that another trie stores and then with those of this one, and with itself, in the same
    /// room.
    pub fn find_overlaps_over(
        &self,
        below: &Trie,
        left: &[Symbol],
        number: u32,
        found: &mut Found,
    ) -> Result<(), AllocError>
        requires { 0 < length left.now }
        ensures { OnOk result (ArePlaces (below.now ++ self.now) left.now number found.new) }
    {
        below.collect(left, number, &mut found.nodes, &mut found.keys)?;
        self.add_all(left, number, &mut found.nodes, &mut found.keys)?;
        found.keys.sort_unstable();
        write_places(&found.keys, &mut found.places)
    }

    // Puts the places in order, in place of those that were there. Nodes and keys are put where the others were, too.
    fn write_overlaps(
        &self,
        left: &[Symbol],
        number: u32,
        nodes: &mut Vec<Met>,
        keys: &mut Vec<Key>,
        places: &mut Vec<Place>,
    ) -> Result<(), AllocError>
        requires { 0 < length left.now }
        ensures { OnOk result (ArePlaces self.now left.now number places.new.items) }
    {
        self.collect(left, number, nodes, keys)?;
        keys.sort_unstable();
        write_places(keys, places)
    }
}
