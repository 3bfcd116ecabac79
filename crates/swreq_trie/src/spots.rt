//! Which stored sides are listed at each node.

ghost use Rattle.std.specs.Prelude.{◌≡◌, ℕ, ◌⊎◌, ◌<◌, filter, length, nat_lt, IfOk, OnOk};
ghost use Rattle.swreq_trie.specs.{declared.spots.Spot.{Spot}, Marks.{AreCopies, Forgets, Holds, IsListed, KeepsListed, ListsOnly}};

use std::alloc::{AllocError, Global};

/// A place in a stored side: the index of the side, the index of the symbol in it, how many symbols the side has from there on, and the
/// number of the side.
#[derive(Clone, Copy, Debug)]
pub(crate) struct Spot {
    pub side: usize,
    pub at: usize,
    pub rest: usize,
    pub number: u32,
}

// The spots of the node.
pub(crate) fn spots_of(lists: &[Vec<Spot>], node: usize) -> &[Spot]
    ensures all { (spot : Spot) → IsListed lists.now node spot → Holds result.now spot }
    ensures only { (spot : Spot) → Holds result.now spot → IsListed lists.now node spot }
{
    if node < lists.len() {
        lists[node].as_slice()
    } else {
        &[]
    }
}

// Makes room for a list of the node.
fn make_room(alloc: Global, lists: &mut Vec<Vec<Spot>>, node: usize) -> Result<(), AllocError>
    ensures room { OnOk result (node < length lists.new.items) }
    ensures kept { KeepsListed lists.old.items lists.new.items }
    ensures only { KeepsListed lists.new.items lists.old.items }
{
    'room: while lists.len() <= node {
        lists.push(Vec::new(alloc))?;
    }
    Ok(())
}

// Puts the spot last in a list.
fn push(list: &mut Vec<Spot>, spot: Spot) -> Result<(), AllocError>
    ensures added { OnOk result (Holds list.new.items spot) }
    ensures kept { (other : Spot) → Holds list.old.items other → Holds list.new.items other }
    ensures only { (other : Spot) → Holds list.new.items other
        → Holds list.old.items other ⊎ (other ≡ spot) }
{
    list.push(spot)?;
    Ok(())
}

// Adds the spot to those of the node. If memory runs out, all that were there stay.
pub(crate) fn add_spot(
    alloc: Global,
    lists: &mut Vec<Vec<Spot>>,
    node: usize,
    spot: Spot,
) -> Result<(), AllocError>
    ensures added { OnOk result (IsListed lists.new.items node spot) }
    ensures kept { KeepsListed lists.old.items lists.new.items }
    ensures only { ListsOnly lists.old.items lists.new.items (λ n s. (n ≡ node) × (s ≡ spot)) }
{
    make_room(alloc, lists, node)?;
    push(&mut lists[node], spot)
}

// Takes the spots in sides from this one on out of the list.
fn retain(list: &mut Vec<Spot>, side: usize)
    ensures { list.new.items ≡ filter (λ (spot : Spot). nat_lt spot.side side) list.old.items }
{
    list.retain(|spot| spot.side < side);
}

// Takes the spots in sides from this one on out of all lists.
pub(crate) fn forget(lists: &mut Vec<Vec<Spot>>, side: usize)
    ensures { Forgets lists.old.items lists.new.items side }
{
    for node in 0..lists.len() {
        retain(&mut lists[node], side);
    }
}

// The same lists once more.
pub(crate) fn copy_lists(alloc: Global, lists: &[Vec<Spot>]) -> Result<Vec<Vec<Spot>>, AllocError>
    ensures { IfOk result (λ copies. AreCopies lists.now copies.items) }
{
    let mut copies: Vec<Vec<Spot>> = Vec::with_capacity(alloc, lists.len())?;
    for list in lists {
        copies.push(Vec::from_slice(alloc, list)?)?;
    }
    Ok(copies)
}
