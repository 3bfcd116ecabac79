// Names in the order of their bytes.
ghost use Rattle.std.specs.{Prelude.{◌≡◌, ◌<◌, ◌≤◌, ◌↔◌, Contains, MatchOption, Some, slice_get, length}, List.Sorted.{IsStrictlySortedBy}};
ghost use Rattle.swreq_rank.specs.Ranks.{Bytes, bytes_cmp};

use crate::ranked::Ranked;
use std::cmp::Ordering;
use std::marker::Model;
use swreq_text::Seq;

/// Names, each once, in the order of their bytes.
#[derive(Drop)]
pub struct Ranks {
    sorted: Ranked<Seq<u8>>,
}

impl Model for Ranks {
    ghost use Rattle.std.specs.Prelude.{List};
    ghost use Rattle.swreq_rank.specs.Ranks.{Bytes};

    ghost Value = { List Bytes };

    ghost view = { λ n. n.sorted };
}

impl Ranks {
    /// The names of the list, each once.
    pub fn of(names: Vec<Seq<u8>>) -> Ranks
        ensures same { (name : Bytes) → Contains result name ↔ Contains names.items name }
        ensures count { length result ≤ length names.items }
    {
        Ranks {
            sorted: Ranked::of(names),
        }
    }

    /// How many names there are.
    pub fn len(&self) -> usize
        ensures len { result ≡ length self.now }
        ensures sorted { IsStrictlySortedBy bytes_cmp self.now }
    {
        self.sorted.items().len()
    }

    /// The name with a rank.
    pub fn name(&self, rank: usize) -> &[u8]
        requires { rank < length self.now }
        ensures { slice_get self.now rank ≡ Some result.now }
    {
        let name = &self.sorted.items()[rank];
        name.items()
    }

    /// The rank of a name that is there.
    pub fn find(&self, name: &[u8]) -> Option<usize>
        ensures { MatchOption result (Contains self.now name.now → ⊥)
            (λ i. slice_get self.now i ≡ Some name.now) }
    {
        let names = self.sorted.items();
        match names.binary_search_by(|other| compare(other, name)) {
            Ok(rank) => Some(rank),
            Err(_) => None,
        }
    }
}

/// How the names compare by their bytes.
fn compare(name: &Seq<u8>, other: &[u8]) -> Ordering
    ensures { result ≡ bytes_cmp name.now other.now }
{
    name.items().cmp(&other)
}
