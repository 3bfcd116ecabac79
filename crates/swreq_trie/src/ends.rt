//! Which stored side ends at each node, by its number. Which edge ends each chain is kept so too, by its place.

ghost use Rattle.std.specs.Prelude.{ℕ, ◌<◌, length, MatchOption, OnOk};
ghost use Rattle.swreq_trie.specs.Marks.{EndsAt, Marked, SameEnds};

use std::alloc::AllocError;

// The number of the side that ends at the node, or None where none does.
pub(crate) fn end_at(ends: &[Option<u32>], node: usize) -> Option<u32>
    ensures { MatchOption result ((number : ℕ) → EndsAt ends.now node number → ⊥)
        (λ number. EndsAt ends.now node number) }
{
    if node < ends.len() { ends[node] } else { None }
}

// Makes room for an end at the node.
pub(crate) fn make_room(ends: &mut Vec<Option<u32>>, node: usize) -> Result<(), AllocError>
    ensures room { OnOk result (node < length ends.new.items) }
    ensures same { SameEnds ends.old.items ends.new.items }
{
    'room: while ends.len() <= node {
        ends.push(None)?;
    }
    Ok(())
}

// Has the side with the number end at the node, if none ends there yet.
pub(crate) fn mark(ends: &mut Vec<Option<u32>>, node: usize, number: u32)
    requires { node < length ends.old.items }
    ensures { Marked ends.old.items ends.new.items node number }
{
    match ends[node] {
        Some(_) => {}
        None => ends[node] = Some(number),
    }
}
