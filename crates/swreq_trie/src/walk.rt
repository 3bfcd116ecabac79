//! The ways of words through a trie.

ghost use Rattle.std.specs.Prelude.{◌≡◌, ◌⊎◌, ℕ, ◌+◌, ◌<◌, ◌≤◌, [], ◌∷◌, ◌++◌, MatchOption, MatchResult, IfOk, IfErr, OnOk, length};
ghost use Rattle.swreq_trie.specs.{declared.spots.Spot.{Spot}, declared.walk.Met.{Met}, Paths.{IsChild, IsForked, IsGrown, Leads}, Marks.{EndsAt, Holds, IsListed, KeepsListed, ListsOnly, SameEnds}, Index.{HasSpot, IsInside, IsOnWay, IsPassing, IsWithin, begin_of, spot_of}, Walk.{AreMet, FirstEnd, TellsNoEnd}};

use crate::edges::Edges;
use crate::ends::{end_at, make_room};
use crate::spots::{Spot, add_spot};
use std::alloc::{AllocError, Global};
use swreq_rule::word::Symbol;

/// A node on the way of a word, and how many symbols lead to it.
#[derive(Clone, Copy, Debug)]
pub(crate) struct Met {
    pub node: usize,
    pub depth: usize,
}

/// A side that is to be stored: its index among those that are, the number of its rule, and its symbols.
#[derive(Clone, Copy)]
pub(crate) struct Side<'a> {
    pub index: usize,
    pub number: u32,
    pub left: &'a [Symbol],
}

// The number of the shortest side that begins the word: the one that ends at the first node on its way where one does. Or else how many
// symbols of the word tell that none does: those up to the first by which no edge leads on, or one more than there are.
pub(crate) fn find(edges: &Edges, ends: &[Option<u32>], w: &[Symbol]) -> Result<u32, usize>
    requires { IsForked edges.now }
    ensures found { MatchResult result
        (λ number. FirstEnd edges.now ends.now w.now number)
        (λ count. TellsNoEnd edges.now ends.now w.now count) }
    ensures within { IfErr result (λ count. count ≤ length w.now + 1) }
{
    let mut node = 0;
    for k in 0..w.len() {
        match edges.child(node, w[k]) {
            None => return Err(k + 1),
            Some(child) => {
                match end_at(ends, child) {
                    Some(number) => return Ok(number),
                    None => {}
                }
                node = child;
            }
        }
    }
    Err(w.len() + 1)
}

// The node to which the word leads, or None where it leads to none.
pub(crate) fn end_of(edges: &Edges, w: &[Symbol]) -> Option<usize>
    requires { IsForked edges.now }
    ensures { MatchOption result ((node : ℕ) → Leads edges.now 0 w.now node → ⊥)
        (λ node. Leads edges.now 0 w.now node) }
{
    let mut node = 0;
    for symbol in w {
        match edges.child(node, *symbol) {
            None => return None,
            Some(child) => node = child,
        }
    }
    Some(node)
}

// Puts the node last.
fn push(nodes: &mut Vec<Met>, met: Met) -> Result<(), AllocError>
    ensures { OnOk result (nodes.new.items ≡ nodes.old.items ++ met ∷ []) }
{
    nodes.push(met)?;
    Ok(())
}

// Puts the node last, if a side ends at it.
fn add_ended(ends: &[Option<u32>], met: Met, nodes: &mut Vec<Met>) -> Result<(), AllocError>
    ensures ended { OnOk result
        ((number : ℕ) → EndsAt ends.now met.node number → Holds nodes.new.items met) }
    ensures kept { OnOk result
        ((other : Met) → Holds nodes.old.items other → Holds nodes.new.items other) }
    ensures only { OnOk result ((other : Met) → Holds nodes.new.items other
        → Holds nodes.old.items other ⊎ (other ≡ met)) }
{
    match end_at(ends, met.node) {
        Some(_) => push(nodes, met),
        None => Ok(()),
    }
}

// Puts the nodes on the way of the word at which a side ends, and the one to which the whole word leads, in place of those that were there.
pub(crate) fn find_met(
    edges: &Edges,
    ends: &[Option<u32>],
    w: &[Symbol],
    nodes: &mut Vec<Met>,
) -> Result<(), AllocError>
    requires { IsForked edges.now }
    ensures { OnOk result (AreMet edges.now ends.now w.now nodes.new.items) }
{
    nodes.clear();
    let mut node = 0;
    for k in 0..w.len() {
        match edges.child(node, w[k]) {
            None => return Ok(()),
            Some(child) => {
                let depth = k + 1;
                add_ended(ends, Met { node: child, depth }, nodes)?;
                node = child;
            }
        }
    }
    let depth = w.len();
    push(nodes, Met { node, depth })
}

// Goes on by the symbol, by an edge that is made where there is none, and lists the start of a side at the node to which it leads.
fn make_step(
    alloc: Global,
    edges: &mut Edges,
    passing: &mut Vec<Vec<Spot>>,
    begin: Spot,
    node: usize,
    symbol: Symbol,
) -> Result<usize, AllocError>
    ensures child { IfOk result (λ child. IsChild edges.new node symbol child) }
    ensures listed { IfOk result (λ child. IsListed passing.new.items child begin) }
    ensures only { ListsOnly passing.old.items passing.new.items
        (λ n s. (s ≡ begin) × IsChild edges.new node symbol n) }
    ensures grown { IsGrown edges.old edges.new }
    ensures forked { IsForked edges.new }
    ensures passing { KeepsListed passing.old.items passing.new.items }
{
    let child = edges.make_child(node, symbol)?;
    add_spot(alloc, passing, child, begin)?;
    Ok(child)
}

// The node to which edges lead by the symbols of the side from the root. The edges that are missing are made, and the start of the side
// is listed at each node on its way.
fn make_path(
    alloc: Global,
    edges: &mut Edges,
    passing: &mut Vec<Vec<Spot>>,
    begin: Spot,
    left: &[Symbol],
) -> Result<usize, AllocError>
    requires { IsForked edges.old }
    ensures leads { IfOk result (λ node. Leads edges.new 0 left.now node) }
    ensures listed { OnOk result (IsPassing edges.new passing.new.items begin left.now) }
    ensures only { ListsOnly passing.old.items passing.new.items
        (λ n s. (s ≡ begin) × IsOnWay edges.new left.now n) }
    ensures grown { IsGrown edges.old edges.new }
    ensures forked { IsForked edges.new }
    ensures passing { KeepsListed passing.old.items passing.new.items }
{
    let mut node = 0;
    for symbol in left {
        node = make_step(alloc, edges, passing, begin, node, *symbol)?;
    }
    Ok(node)
}

// Lists the spot at the node to which an edge leads from the root by the symbol there.
fn add_inside_at(
    alloc: Global,
    edges: &mut Edges,
    inside: &mut Vec<Vec<Spot>>,
    spot: Spot,
    symbol: Symbol,
) -> Result<(), AllocError>
    ensures spot { OnOk result (HasSpot edges.new inside.new.items spot symbol) }
    ensures only { ListsOnly inside.old.items inside.new.items
        (λ n s. (s ≡ spot) × IsChild edges.new 0 symbol n) }
    ensures grown { IsGrown edges.old edges.new }
    ensures forked { IsForked edges.new }
    ensures inside { KeepsListed inside.old.items inside.new.items }
{
    let node = edges.make_child(0, symbol)?;
    add_spot(alloc, inside, node, spot)
}

// Lists all places in the side past its begin at the nodes of their symbols.
fn add_inside(
    alloc: Global,
    edges: &mut Edges,
    inside: &mut Vec<Vec<Spot>>,
    side: usize,
    number: u32,
    left: &[Symbol],
) -> Result<(), AllocError>
    requires { IsForked edges.old }
    ensures spots { OnOk result
        (IsInside edges.new inside.new.items side (record { left = left.now; number = number })) }
    ensures only { ListsOnly inside.old.items inside.new.items
        (λ n s. (at : ℕ) × (s ≡ spot_of side (record { left = left.now; number = number }) at)
        × IsWithin edges.new left.now at n) }
    ensures grown { IsGrown edges.old edges.new }
    ensures forked { IsForked edges.new }
    ensures inside { KeepsListed inside.old.items inside.new.items }
{
    for at in 1..left.len() {
        let rest = left.len() - at;
        let spot = Spot {
            side,
            at,
            rest,
            number,
        };
        add_inside_at(alloc, edges, inside, spot, left[at])?;
    }
    Ok(())
}

// Makes the way of the side, with room for an end at its last node, and lists the side. What was there stays, also if memory runs out.
pub(crate) fn make_way(
    alloc: Global,
    edges: &mut Edges,
    ends: &mut Vec<Option<u32>>,
    passing: &mut Vec<Vec<Spot>>,
    inside: &mut Vec<Vec<Spot>>,
    side: &Side<'_>,
) -> Result<usize, AllocError>
    requires { IsForked edges.old }
    ensures leads { IfOk result (λ node. Leads edges.new 0 side.now.left.now node) }
    ensures room { IfOk result (λ node. node < length ends.new.items) }
    ensures listed { OnOk result (IsPassing edges.new passing.new.items (begin_of side.now.index
        (record { left = side.now.left.now; number = side.now.number })) side.now.left.now) }
    ensures spots { OnOk result (IsInside edges.new inside.new.items side.now.index
        (record { left = side.now.left.now; number = side.now.number })) }
    ensures passes { ListsOnly passing.old.items passing.new.items
        (λ n s. (s
        ≡ begin_of side.now.index (record { left = side.now.left.now; number = side.now.number }))
        × IsOnWay edges.new side.now.left.now n) }
    ensures stands { ListsOnly inside.old.items inside.new.items
        (λ n s. (at : ℕ) × (s
        ≡ spot_of side.now.index (record { left = side.now.left.now; number = side.now.number }) at)
        × IsWithin edges.new side.now.left.now at n) }
    ensures grown { IsGrown edges.old edges.new }
    ensures forked { IsForked edges.new }
    ensures ends { SameEnds ends.old.items ends.new.items }
    ensures passing { KeepsListed passing.old.items passing.new.items }
    ensures inside { KeepsListed inside.old.items inside.new.items }
{
    let begin = Spot {
        side: side.index,
        at: 0,
        rest: side.left.len(),
        number: side.number,
    };
    let node = make_path(alloc, edges, passing, begin, side.left)?;
    make_room(ends, node)?;
    add_inside(alloc, edges, inside, side.index, side.number, side.left)?;
    Ok(node)
}
