// Protocols in an order, each with its place.
ghost use Rattle.std.specs.Prelude.{◌≡◌, ◌<◌, ℕ, length, slice_get, Some, MatchOption, Contains, IfOk};
ghost use Rattle.swreq_lexicon.specs.Symbols.{AreOnce, ArePlaces, StandsAt};

use std::alloc::{AllocError, Global};
use std::marker::Model;
use swreq_derive::param::ProtoId;

/// Protocols in an order, each once, and the place of each by its rank.
#[derive(Drop)]
pub struct Ordered {
    protos: Vec<ProtoId>,
    places: Vec<usize>,
}

impl Model for Ordered {
    ghost use Rattle.std.specs.Prelude.{List};
    ghost use Rattle.swreq_lexicon.specs.Symbols.{ArePlaces};
    ghost use Rattle.swreq_derive.specs.swreq_param.declared.ids.ProtoId.{ProtoId};

    ghost Value = { List ProtoId };

    ghost view = { λ o. o.protos.items };

    ghost invariant = { λ o. ArePlaces o.protos.items o.places.items };
}

impl Ordered {
    /// These protocols in this order. Their ranks are below the bound.
    pub fn of(alloc: Global, protos: Vec<ProtoId>, bound: u32) -> Result<Ordered, AllocError>
        requires within { (p : ProtoId) → Contains protos.items p → p.rank < bound }
        requires once { AreOnce protos.items }
        ensures { IfOk result (λ o. o ≡ protos.items) }
    {
        let places = places_of(alloc, &protos, bound)?;
        Ok(Ordered { protos, places })
    }

    /// The protocols in their order.
    pub fn protos(&self) -> &[ProtoId]
        ensures { result.now ≡ self.now }
    {
        &self.protos
    }

    /// The place of a protocol, or None if and only if it is not among these.
    pub fn place_of(&self, protocol: ProtoId) -> Option<usize>
        ensures { MatchOption result (Contains self.now protocol → ⊥) (StandsAt self.now protocol) }
    {
        let place = kept(&self.places, protocol)?;
        here(&self.protos, protocol, place)
    }
}

/// The place that is kept for a protocol, or None if none is.
fn kept(places: &[usize], protocol: ProtoId) -> Option<usize>
    ensures { result ≡ slice_get places.now protocol.rank }
{
    places.get(protocol.rank as usize).copied()
}

/// This place if the protocol stands there, or None if it does not.
fn here(protos: &[ProtoId], protocol: ProtoId, place: usize) -> Option<usize>
    ensures { MatchOption result (slice_get protos.now place ≡ Some protocol → ⊥)
        (λ k. (k ≡ place) × (slice_get protos.now place ≡ Some protocol)) }
{
    let there = protos.get(place)?;
    if protocol == *there {
        Some(place)
    } else {
        None
    }
}

/// The places of these protocols, by rank.
fn places_of(alloc: Global, protos: &[ProtoId], bound: u32) -> Result<Vec<usize>, AllocError>
    requires within { (p : ProtoId) → Contains protos.now p → p.rank < bound }
    requires once { AreOnce protos.now }
    ensures { IfOk result (λ places. ArePlaces protos.now places.items) }
{
    let mut places = vec![in alloc; 0; bound as usize]?;
    for k in 0..protos.len() {
        places[protos[k].rank as usize] = k;
    }
    Ok(places)
}
