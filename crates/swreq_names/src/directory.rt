// Declared names by their bytes.
ghost use Rattle.std.specs.{Prelude.{◌≡◌, ℕ, List, map, IfOk, OnOk, None, Some, cond, length, slice_get, slice_index_or, Contains, ◌↔◌}, Str.{bytes_eq}};
ghost use Rattle.swreq_names.specs.{Spaces.{place, is_declared, offset_of, is_declared_before, refers_to}, Directories.{names_of}};

use std::alloc::{AllocError, Global};
use std::marker::Model;
use swreq_rank::Ranks;
use swreq_text::Seq;

/// A declared name, and its offset in bytes.
#[derive(Drop)]
pub struct Declaration {
    pub name: Seq<u8>,
    pub at: u32,
}

/// Declarations in written order, and for each name its first place among them.
#[derive(Drop)]
pub struct Directory {
    items: Vec<Declaration>,
    ranks: Ranks,
    firsts: Vec<Option<usize>>,
}

impl Model for Directory {
    ghost use Rattle.std.specs.Prelude.{List};
    ghost use Rattle.swreq_names.specs.{declared.directory.Declaration.{Declaration}, Directories.{AreFirsts}};

    ghost Value = { List Declaration };

    ghost view = { λ d. d.items.items };

    ghost invariant = { λ d. AreFirsts d.items.items d.ranks d.firsts.items };
}

impl Directory {
    /// The directory of these declarations.
    pub fn of(alloc: Global, items: Vec<Declaration>) -> Result<Self, AllocError>
        ensures { IfOk result (λ d. d ≡ items.items) }
    {
        let ranks = Ranks::of(names(alloc, &items)?);
        let firsts = first_places(alloc, &items, &ranks)?;
        Ok(Directory {
            items,
            ranks,
            firsts,
        })
    }

    /// The declarations, in written order.
    pub fn items(&self) -> &[Declaration]
        ensures { result.now ≡ self.now }
    {
        &self.items
    }

    /// The first place of a name, from 0.
    pub fn find(&self, name: &[u8]) -> Option<usize>
        ensures { result ≡ place self.now name.now }
    {
        let rank = self.ranks.find(name)?;
        first_at(&self.firsts, rank)
    }

    /// Whether it has the name.
    pub fn has(&self, name: &[u8]) -> bool
        ensures { result ≡ is_declared self.now name.now }
    {
        self.find(name).is_some()
    }

    /// The offset of the declaration at this place, or 0 if there is none.
    fn offset_of(&self, place: usize) -> u32
        ensures { result ≡ offset_of self.now place }
    {
        match self.items.get(place) {
            Some(declaration) => declaration.at,
            None => 0,
        }
    }

    /// Whether it has the name before this offset.
    pub fn has_before(&self, name: &[u8], at: u32) -> bool
        ensures { result ≡ is_declared_before self.now name.now at }
    {
        match self.find(name) {
            Some(place) => self.offset_of(place) < at,
            None => false,
        }
    }

    /// The place of what the name refers to in the space of these declarations and the others, if that is one of these.
    pub fn refers_to(&self, others: &Directory, name: &[u8]) -> Option<usize>
        ensures { result ≡ refers_to self.now others.now name.now }
    {
        let place = self.find(name)?;
        if others.has_before(name, self.offset_of(place)) {
            None
        } else {
            Some(place)
        }
    }
}

fn first_at(firsts: &[Option<usize>], rank: usize) -> Option<usize>
    ensures { result ≡ slice_index_or firsts.now rank None }
{
    *firsts.get(rank)?
}

/// The names of these declarations.
fn names(alloc: Global, items: &[Declaration]) -> Result<Vec<Seq<u8>>, AllocError>
    ensures { IfOk result (λ names. names.items ≡ names_of items.now) }
{
    let mut names = Vec::new(alloc);
    for item in items {
        names.push(Seq::new(item.name.items().to_vec(alloc)?))?;
    }
    Ok(names)
}

/// Notes that the name stands at this place.
fn note(place: usize, name: &[u8], ranks: &Ranks, firsts: &mut Vec<Option<usize>>)
    requires { length firsts.old.items ≡ length ranks.now }
    ensures len { length firsts.new.items ≡ length firsts.old.items }
    ensures noted { (r : ℕ) (q : List ℕ) → slice_get ranks.now r ≡ Some q
        → slice_index_or firsts.new.items r None
        ≡ cond (bytes_eq q name.now) (Some place) (slice_index_or firsts.old.items r None) }
{
    let _count = ranks.len();
    match ranks.find(name) {
        Some(rank) => firsts[rank] = Some(place),
        None => {}
    }
}

/// The first place of each name, by its rank.
fn first_places(
    alloc: Global,
    items: &[Declaration],
    ranks: &Ranks,
) -> Result<Vec<Option<usize>>, AllocError>
    ensures { IfOk result (λ firsts. (r : ℕ) (q : List ℕ) → slice_get ranks.now r ≡ Some q
        → slice_index_or firsts.items r None ≡ place items.now q) }
{
    let mut firsts = vec![in alloc; None; ranks.len()]?;
    let mut i = items.len();
    while i > 0 {
        i -= 1;
        let item = &items[i];
        note(i, item.name.items(), ranks, &mut firsts);
    }
    Ok(firsts)
}
