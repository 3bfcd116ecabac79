//! What was tried.
ghost use Rattle.std.specs.Prelude.{◌≡◌, ◌<◌, ◌++◌, [], ◌∷◌, ℕ, length, slice_get, Some, IfOk, OnOk};
ghost use Rattle.swreq_confpath.specs.{declared.places.Place.TheVariants.{Start}, Spots.{IsKept, Spot}};

use crate::places::Place;
use indexmap::IndexMap;
use std::alloc::{AllocError, Global};
use std::marker::Model;
use swreq_text::Seq;

/// Places, each once, with the numbers that led there first, in the order in which they came.
#[derive(Drop)]
pub(crate) struct Tried {
    numbers: IndexMap<Place, Seq<u32>>,
}

impl Model for Tried {
    ghost use Rattle.std.specs.Prelude.{List};
    ghost use Rattle.swreq_confpath.specs.Spots.{Spot};

    ghost Value = { List Spot };

    ghost view = { λ t. t.numbers.entries };
}

/// These numbers and one more.
fn with_last(alloc: Global, numbers: &[u32], last: u32) -> Result<Seq<u32>, AllocError>
    ensures { IfOk result (λ all. all ≡ numbers.now ++ last ∷ []) }
{
    let mut all = Vec::from_slice(alloc, numbers)?;
    all.push(last)?;
    Ok(Seq::new(all))
}

impl Tried {
    /// No numbers, which lead to the start.
    pub(crate) fn start(alloc: Global) -> Result<Tried, AllocError>
        ensures { IfOk result (λ t. t ≡ (Start, []) ∷ []) }
    {
        let mut numbers = IndexMap::new(alloc);
        numbers.insert(Place::Start, Seq::new(Vec::new(alloc)))?;
        Ok(Tried { numbers })
    }

    /// How many places there are.
    pub(crate) fn len(&self) -> usize
        ensures { result ≡ length self.now }
    {
        self.numbers.len()
    }

    /// The place at an index, with its numbers.
    pub(crate) fn spot(&self, index: usize) -> (&Place, &[u32])
        requires { index < length self.now }
        ensures { slice_get self.now index ≡ Some (result.0.now, result.1.now) }
    {
        match self.numbers.get_index(index) {
            Some((place, numbers)) => (place, numbers.items()),
            None => unreachable!(),
        }
    }

    /// Keeps the place to which the numbers of the place at this index lead with one more, unless it is there already.
    pub(crate) fn keep(
        &mut self,
        alloc: Global,
        index: usize,
        number: u32,
        place: Place,
    ) -> Result<(), AllocError>
        requires { index < length self.old }
        ensures { OnOk result ((s : Spot) → slice_get self.old index ≡ Some s
            → IsKept self.old self.new place (s.1 ++ number ∷ [])) }
    {
        if self.numbers.contains_key(&place) {
            return Ok(());
        }
        let (_, before) = self.spot(index);
        let numbers = with_last(alloc, before, number)?;
        self.numbers.insert(place, numbers)?;
        Ok(())
    }
}
