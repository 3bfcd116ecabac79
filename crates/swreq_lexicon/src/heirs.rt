// Which protocols inherit each protocol, by places in an order.
ghost use Rattle.std.specs.Prelude.{◌≡◌, ◌↔◌, ◌⊎◌, ◌<◌, ℕ, false, length, Some, Contains, IfOk, MatchOption, OnOk};
ghost use Rattle.swreq_closure.specs.{Bits.{has}, Chains.{next}};
ghost use Rattle.swreq_derive.specs.swreq_param.declared.ids.ProtoId.{ProtoId};
ghost use Rattle.swreq_lexicon.specs.{Heirs.{leads_up, position_at, AreAllHeirs, AreDirectHeirs, ArePositions, HavePositions}, Views.{place_by}};

use crate::ordered::Ordered;
use crate::protocols::Protocols;
use std::alloc::{AllocError, Global};
use std::marker::Model;
use swreq_closure::{Bits, Closure};
use swreq_derive::param::ProtoId;
use swreq_rank::Lists;
use swreq_text::Seq;

/// For each protocol of an order, the places of the protocols that inherit it: the closure of the steps from each protocol to those that
/// inherit it directly.
#[derive(Drop)]
pub struct Heirs {
    /// For each place in written order, the place in the order of the protocol that stands there.
    positions: Vec<Option<usize>>,
    closure: Closure,
}

impl Model for Heirs {
    ghost use Rattle.swreq_lexicon.specs.Heirs.{HeirsView};

    ghost Value = { HeirsView };

    ghost view = { λ h. record { positions = h.positions.items; rows = h.closure } };
}

impl Heirs {
    /// The heirs of the protocols of an order. The order has all protocols.
    pub fn of(alloc: Global, protocols: &Protocols, ordered: &Ordered) -> Result<Heirs, AllocError>
        requires { (p : ProtoId) → p.rank < length protocols.now.protocols
            → Contains ordered.now p }
        ensures { IfOk result
            (AreAllHeirs ordered.now protocols.now.places protocols.now.resolved.inherits) }
    {
        let order = ordered.protos();
        let direct = protocols.direct();
        let positions = positions(alloc, protocols, order, direct.len())?;
        let heirs = direct_heirs(alloc, protocols, order, &positions, direct)?;
        let closure = Closure::of(alloc, &heirs)?;
        Ok(Heirs { positions, closure })
    }

    /// The places in the order of the protocols that inherit the protocol at this place in written order, or None if there is no such
    /// protocol.
    pub fn at(&self, place: usize) -> Option<&Bits>
        ensures { MatchOption result
            ((k : ℕ) → leads_up self.now.rows (position_at self.now.positions place) k ≡ false)
            (λ places. (k : ℕ)
            → has places.now k ≡ leads_up self.now.rows (position_at self.now.positions place) k) }
    {
        match self.positions.get(place) {
            Some(Some(position)) => self.closure.places_from(*position),
            _ => None,
        }
    }
}

/// For each place in written order below the bound, the place in the order of the protocol that stands there, if one does.
fn positions(
    alloc: Global,
    protocols: &Protocols,
    order: &[ProtoId],
    bound: usize,
) -> Result<Vec<Option<usize>>, AllocError>
    ensures len { IfOk result (λ positions. length positions.items ≡ bound) }
    ensures are { IfOk result
        (λ positions. ArePositions order.now protocols.now.places positions.items) }
    ensures all { IfOk result (λ positions.
        HavePositions order.now protocols.now.places positions.items (length order.now)) }
{
    let mut positions = vec![in alloc; None; bound]?;
    for k in 0..order.len() {
        let place = protocols.place(order[k]);
        if place < bound {
            positions[place] = Some(k);
        }
    }
    Ok(positions)
}

/// The position of a place in written order, if a protocol stands there.
fn position_at(positions: &[Option<usize>], place: usize) -> Option<usize>
    ensures { result ≡ position_at positions.now place }
{
    *positions.get(place)?
}

/// Adds a protocol to the heirs of each of these bases, which it inherits directly.
fn add_heir(
    positions: &[Option<usize>],
    bases: &[usize],
    heir: usize,
    lists: &mut Lists<usize>,
) -> Result<(), AllocError>
    requires { (place m : ℕ) → position_at positions.now place ≡ Some m → m < length lists.old }
    ensures len { OnOk result (length lists.new ≡ length lists.old) }
    ensures added { OnOk result
        ((m k : ℕ) → Contains (next lists.new m) k ↔ (Contains (next lists.old m) k
        ⊎ ((k ≡ heir) × (place : ℕ) × Contains bases.now place
        × (position_at positions.now place ≡ Some m)))) }
{
    for base in bases {
        if let Some(position) = position_at(positions, *base) {
            lists.push(position, heir)?;
        }
    }
    Ok(())
}

/// The places that one step leads to from a place.
fn bases_of(direct: &[Seq<usize>], place: usize) -> &[usize]
    ensures { result.now ≡ next direct.now place }
{
    match direct.get(place) {
        Some(bases) => bases.items(),
        None => &[],
    }
}

/// For each place in the order, the places of the protocols that directly inherit the protocol there.
fn direct_heirs(
    alloc: Global,
    protocols: &Protocols,
    order: &[ProtoId],
    positions: &[Option<usize>],
    direct: &[Seq<usize>],
) -> Result<Vec<Seq<usize>>, AllocError>
    requires { ArePositions order.now protocols.now.places positions.now }
    ensures len { IfOk result (λ heirs. length heirs.items ≡ length order.now) }
    ensures are { IfOk result
        (λ heirs. AreDirectHeirs order.now protocols.now.places positions.now direct.now
        (length order.now) heirs.items) }
{
    let mut lists = Lists::new(alloc, order.len())?;
    for k in 0..order.len() {
        let bases = bases_of(direct, protocols.place(order[k]));
        add_heir(positions, bases, k, &mut lists)?;
    }
    lists.into_seqs(alloc)
}
