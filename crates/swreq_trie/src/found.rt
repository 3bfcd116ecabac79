//! Places that were found, in room that is kept.

ghost use Rattle.std.specs.Prelude.{◌≡◌, []};

use crate::overlaps::Key;
use crate::walk::Met;
use std::alloc::Global;
use std::marker::Model;
use swreq_rule::Place;

/// The places that were found last, with the room for those of one rule after the other.
#[derive(Drop)]
pub struct Found {
    pub(crate) nodes: Vec<Met>,
    pub(crate) keys: Vec<Key>,
    pub(crate) places: Vec<Place>,
}

impl Model for Found {
    ghost use Rattle.std.specs.Prelude.{List};
    ghost use Rattle.swreq_rule.specs.declared.rules.Place.{Place};

    ghost Value = { List Place };

    ghost view = { λ f. f.places.items };
}

impl Found {
    /// No places, which takes no memory.
    pub fn new(alloc: Global) -> Found
        ensures { result ≡ [] }
    {
        Found {
            nodes: Vec::new(alloc),
            keys: Vec::new(alloc),
            places: Vec::new(alloc),
        }
    }

    /// The places in order.
    pub fn places(&self) -> &[Place]
        ensures { result.now ≡ self.now }
    {
        &self.places
    }
}
