// Lists by place, which grow.
ghost use Rattle.std.specs.Prelude.{◌≡◌, ◌<◌, ◌++◌, ◌∷◌, [], List, replicate, length, slice_set, slice_index_or, IfOk, OnOk};

use std::alloc::{AllocError, Global};
use std::marker::Model;
use swreq_text::Seq;

/// A list, which grows.
#[derive(Drop)]
struct Growing<T> {
    items: Vec<T>,
}

impl<T> Model for Growing<T> {
    ghost use Rattle.std.specs.Prelude.{List};

    ghost Value = { List T };

    ghost view = { λ g. g.items.items };
}

impl<T: Drop> Growing<T> {
    fn new(alloc: Global) -> Self
        ensures { result ≡ [] }
    {
        Growing {
            items: Vec::new(alloc),
        }
    }

    fn push(&mut self, item: T) -> Result<(), AllocError>
        ensures { OnOk result (self.new ≡ self.old ++ item ∷ []) }
    {
        self.items.push(item)?;
        Ok(())
    }

    fn items(&self) -> &[T]
        ensures { result.now ≡ self.now }
    {
        &self.items
    }
}

/// A list of items for each place from 0.
#[derive(Drop)]
pub struct Lists<T> {
    lists: Vec<Growing<T>>,
}

impl<T> Model for Lists<T> {
    ghost use Rattle.std.specs.Prelude.{List};

    ghost Value = { List (List T) };

    ghost view = { λ l. l.lists.items };
}

impl<T: Drop> Lists<T> {
    /// `count` empty lists.
    pub fn new(alloc: Global, count: usize) -> Result<Self, AllocError>
        ensures { IfOk result (λ lists. lists ≡ replicate count []) }
    {
        let mut lists = Vec::new(alloc);
        for _ in 0..count {
            lists.push(Growing::new(alloc))?;
        }
        Ok(Lists { lists })
    }

    /// Puts an item at the end of the list at this place.
    pub fn push(&mut self, place: usize, item: T) -> Result<(), AllocError>
        requires { place < length self.old }
        ensures { OnOk result
            (self.new ≡ slice_set self.old place (slice_index_or self.old place [] ++ item ∷ [])) }
    {
        self.lists[place].push(item)?;
        Ok(())
    }

    /// The lists, by place.
    pub fn into_seqs(self, alloc: Global) -> Result<Vec<Seq<T>>, AllocError>
        ensures { IfOk result (λ seqs. seqs.items ≡ self) }
    {
        let mut seqs = Vec::new(alloc);
        for list in self.lists {
            seqs.push(Seq::new(list.items))?;
        }
        Ok(seqs)
    }

    /// The list at this place, or an empty one where there is no list.
    pub fn at(&self, place: usize) -> &[T]
        ensures { result.now ≡ slice_index_or self.now place [] }
    {
        match self.lists.get(place) {
            Some(list) => list.items(),
            None => &[],
        }
    }
}
