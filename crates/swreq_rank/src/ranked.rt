// The items of a list, each once, in their order.
ghost use Rattle.std.specs.{Prelude.{◌≡◌, ◌≤◌, ◌↔◌, List, IfOk, MatchOption, Contains, Some, slice_get, length}, List.Sorted.{IsStrictlySortedBy}};
ghost use Rattle.swreq_rank.specs.Ranks.{TellsApart};

use std::marker::Model;

/// Items, each once, in their order.
#[derive(Drop)]
pub struct Ranked<T: Ord> {
    sorted: Vec<T>,
}

impl<T: Ord> Model for Ranked<T> {
    ghost use Rattle.std.specs.{Prelude.{List}, List.Sorted.{IsStrictlySortedBy}};

    ghost Value = { List T };

    ghost view = { λ r. r.sorted.items };

    ghost invariant = { λ r. IsStrictlySortedBy T.cmp r.sorted.items };
}

impl<T: Ord> Ranked<T> {
    /// The items, in their order.
    pub fn items(&self) -> &[T]
        ensures items { result.now ≡ self.now }
        ensures sorted { IsStrictlySortedBy T.cmp self.now }
    {
        self.sorted.as_slice()
    }

    /// The rank of an item that is there.
    pub fn find(&self, item: &T) -> Option<usize>
        requires { TellsApart T.cmp }
        ensures { MatchOption result (Contains self.now item.now → ⊥)
            (λ i. slice_get self.now i ≡ Some item.now) }
    {
        match self.sorted.as_slice().binary_search(item) {
            Ok(rank) => Some(rank),
            Err(_) => None,
        }
    }
}

impl<T: Ord + Drop> Ranked<T> {
    /// The items of the list, each once.
    pub fn of(mut items: Vec<T>) -> Ranked<T>
        requires { TellsApart T.cmp }
        ensures same { (x : T) → Contains result x ↔ Contains items.items x }
        ensures count { length result ≤ length items.items }
    {
        items.sort_unstable();
        items.dedup();
        Ranked { sorted: items }
    }
}
