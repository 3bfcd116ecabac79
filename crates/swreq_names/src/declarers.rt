// Which protocols declare a name, by their places in written order.
ghost use Rattle.std.specs.Prelude.{◌≡◌, ◌⊎◌, ◌↔◌, ◌++◌, ℕ, [], List, length, Some, slice_get, slice_index_or, Contains, IfOk, OnOk};
ghost use Rattle.swreq_names.specs.{declared.directory.Declaration.{Declaration}, Directories.{names_of, AreDeclarers}};

use crate::directory::{Declaration, Directory};
use std::alloc::{AllocError, Global};
use swreq_rank::{Lists, Ranks};
use swreq_text::Seq;

/// All names of associated types that protocols declare, and for each name the protocols that declare it.
#[derive(Drop)]
pub struct Declarers {
    pub ranks: Ranks,
    pub lists: Lists<usize>,
}

impl Declarers {
    /// The declarers of the names in these directories, one for each protocol.
    pub fn of(alloc: Global, members: &[Directory]) -> Result<Self, AllocError>
        ensures { IfOk result (λ d. AreDeclarers members.now d.ranks d.lists) }
    {
        let ranks = Ranks::of(all_names(alloc, members)?);
        let lists = lists_of(alloc, &ranks, members)?;
        Ok(Declarers { ranks, lists })
    }

    /// The protocols that declare the name.
    pub fn of_name(&self, name: &[u8]) -> &[usize]
        ensures { (members : List (List Declaration))
            → AreDeclarers members self.now.ranks self.now.lists
            → (j : ℕ)
            → Contains result.now j ↔ Contains (names_of (slice_index_or members j [])) name.now }
    {
        match self.ranks.find(name) {
            Some(rank) => self.lists.at(rank),
            None => &[],
        }
    }
}

fn add_name(
    ranks: &Ranks,
    name: &[u8],
    place: usize,
    lists: &mut Lists<usize>,
) -> Result<(), AllocError>
    requires { length lists.old ≡ length ranks.now }
    ensures len { OnOk result (length lists.new ≡ length lists.old) }
    ensures added { OnOk result ((r : ℕ) (q : List ℕ) → slice_get ranks.now r ≡ Some q → (j : ℕ)
        → Contains (slice_index_or lists.new r []) j
        ↔ (Contains (slice_index_or lists.old r []) j ⊎ ((j ≡ place) × (q ≡ name.now)))) }
{
    let _count = ranks.len();
    match ranks.find(name) {
        Some(rank) => {
            lists.push(rank, place)?;
            Ok(())
        }
        None => Ok(()),
    }
}

fn add_names(
    ranks: &Ranks,
    items: &[Declaration],
    place: usize,
    lists: &mut Lists<usize>,
) -> Result<(), AllocError>
    requires { length lists.old ≡ length ranks.now }
    ensures len { OnOk result (length lists.new ≡ length lists.old) }
    ensures added { OnOk result ((r : ℕ) (q : List ℕ) → slice_get ranks.now r ≡ Some q → (j : ℕ)
        → Contains (slice_index_or lists.new r []) j ↔ (Contains (slice_index_or lists.old r []) j
        ⊎ ((j ≡ place) × Contains (names_of items.now) q))) }
{
    for item in items {
        add_name(ranks, item.name.items(), place, lists)?;
    }
    Ok(())
}

/// For each rank, the protocols that declare its name.
fn lists_of(alloc: Global, ranks: &Ranks, members: &[Directory]) -> Result<Lists<usize>, AllocError>
    ensures { IfOk result (λ lists. (r : ℕ) (q : List ℕ) → slice_get ranks.now r ≡ Some q → (j : ℕ)
        → Contains (slice_index_or lists r []) j
        ↔ Contains (names_of (slice_index_or members.now j [])) q) }
{
    let mut lists = Lists::new(alloc, ranks.len())?;
    for (place, directory) in members.iter().enumerate() {
        add_names(ranks, directory.items(), place, &mut lists)?;
    }
    Ok(lists)
}

fn add_copies(
    alloc: Global,
    items: &[Declaration],
    all: &mut Vec<Seq<u8>>,
) -> Result<(), AllocError>
    ensures { OnOk result (all.new.items ≡ all.old.items ++ names_of items.now) }
{
    for item in items {
        all.push(Seq::new(item.name.items().to_vec(alloc)?))?;
    }
    Ok(())
}

/// All names that protocols declare.
fn all_names(alloc: Global, members: &[Directory]) -> Result<Vec<Seq<u8>>, AllocError>
    ensures { IfOk result (λ all. (j : ℕ) (q : List ℕ)
        → Contains (names_of (slice_index_or members.now j [])) q → Contains all.items q) }
{
    let mut all = Vec::new(alloc);
    for directory in members {
        add_copies(alloc, directory.items(), &mut all)?;
    }
    Ok(all)
}
