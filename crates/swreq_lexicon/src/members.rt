// Which protocol has which member name.
ghost use Rattle.std.specs.Prelude.{◌≡◌, ◌<◌, ◌≤◌, ◌||◌, ◌&&◌, ℕ, false, nat_eq, [], length, slice_get, Some, MatchOption, IfOk, OnOk, Contains};
ghost use Rattle.swreq_closure.specs.Bits.{count_below, has};
ghost use Rattle.swreq_lexicon.specs.{Symbols.{has_member, row_of, AreHeirs, AreRows}, Heirs.{AreAllHeirs}, Views.{inherits_by}, declared.pair.ProtocolName.{ProtocolName}};

use crate::associated::Associated;
use crate::heirs::Heirs;
use crate::ordered::Ordered;
use crate::pair::ProtocolName;
use crate::protocols::Protocols;
use std::alloc::{AllocError, Global};
use std::marker::Model;
use swreq_closure::Bits;
use swreq_derive::param::{NameId, ProtoId};

/// For each name, by rank, the set of the places of the protocols that have it.
#[derive(Drop)]
pub struct Members {
    rows: Vec<Bits>,
}

impl Model for Members {
    ghost use Rattle.std.specs.Prelude.{ℕ, List};

    ghost Value = { List (List ℕ) };

    ghost view = { λ m. m.rows.items };
}

impl Members {
    /// The members of the first `names` names. All associated types have one of these names.
    pub fn of(
        alloc: Global,
        protocols: &Protocols,
        ordered: &Ordered,
        associated: &Associated,
        names: usize,
    ) -> Result<Members, AllocError>
        requires names { (d : ProtocolName) → Contains associated.now d → d.name.rank < names }
        requires all { (p : ProtoId) → p.rank < length protocols.now.protocols
            → Contains ordered.now p }
        ensures { IfOk result (AreRows ordered.now (has_member (inherits_by protocols.now.places
            protocols.now.resolved.inherits) associated.now)) }
    {
        let rows = rows(alloc, protocols, ordered, associated.written(), names)?;
        Ok(Members { rows })
    }

    /// Whether the protocol at the place has the name.
    pub fn at(&self, place: usize, name: NameId) -> bool
        ensures { result ≡ has (row_of self.now name) place }
    {
        match row_at(&self.rows, name) {
            Some(row) => row.contains(place),
            None => false,
        }
    }

    /// Whether the protocol, or one that it inherits, declares the name.
    pub fn has(
        &self,
        protocols: &Protocols,
        ordered: &Ordered,
        associated: &Associated,
        protocol: ProtoId,
        name: NameId,
    ) -> bool
        requires { AreRows ordered.now (has_member (inherits_by protocols.now.places
            protocols.now.resolved.inherits) associated.now) self.now }
        ensures { result ≡ has_member (inherits_by protocols.now.places
            protocols.now.resolved.inherits) associated.now protocol name }
    {
        match ordered.place_of(protocol) {
            Some(place) => self.at(place, name),
            None => associated.has_member(protocols, protocol, name),
        }
    }

    /// At how many places before this one a protocol has the name.
    pub fn count_before(&self, place: usize, name: NameId) -> usize
        ensures { result ≡ count_below (has (row_of self.now name)) place }
    {
        match row_at(&self.rows, name) {
            Some(row) => row.count_to(place),
            None => 0,
        }
    }
}

/// The row of a name, or None if it has no row.
fn row_at(rows: &[Bits], name: NameId) -> Option<&Bits>
    ensures { MatchOption result (row_of rows.now name ≡ [])
        (λ row. row.now ≡ row_of rows.now name) }
{
    rows.get(name.rank as usize)
}

/// The set with only the place of this protocol.
fn itself(alloc: Global, ordered: &Ordered, protocol: ProtoId) -> Result<Bits, AllocError>
    ensures { IfOk result (λ set. (k : ℕ) (p : ProtoId) → slice_get ordered.now k ≡ Some p
        → has set k ≡ nat_eq p.rank protocol.rank) }
{
    match ordered.place_of(protocol) {
        Some(place) => {
            let mut set = Bits::with_room(alloc, place)?;
            set.insert(place);
            Ok(set)
        }
        None => Ok(Bits::new(alloc)),
    }
}

/// The places of this protocol and of the protocols that inherit it.
fn places_of(
    alloc: Global,
    protocols: &Protocols,
    ordered: &Ordered,
    heirs: &Heirs,
    protocol: ProtoId,
) -> Result<Bits, AllocError>
    requires { AreAllHeirs ordered.now protocols.now.places
        protocols.now.resolved.inherits heirs.now }
    ensures { IfOk result (AreHeirs (inherits_by protocols.now.places
        protocols.now.resolved.inherits) ordered.now protocol) }
{
    let set = itself(alloc, ordered, protocol)?;
    match heirs.at(protocols.place(protocol)) {
        Some(places) => set.union(alloc, places),
        None => Ok(set),
    }
}

/// An empty row for each of `names` names.
fn no_rows(alloc: Global, names: usize) -> Result<Vec<Bits>, AllocError>
    ensures len { IfOk result (λ rows. length rows.items ≡ names) }
    ensures none { IfOk result
        (λ rows. (a : NameId) (k : ℕ) → has (row_of rows.items a) k ≡ false) }
{
    let mut rows = Vec::new(alloc);
    for _ in 0..names {
        rows.push(Bits::new(alloc))?;
    }
    Ok(rows)
}

/// Adds places to the row of a name.
fn add(alloc: Global, heirs: &Bits, name: NameId, rows: &mut Vec<Bits>) -> Result<(), AllocError>
    requires within { name.rank < length rows.old.items }
    ensures len { OnOk result (length rows.new.items ≡ length rows.old.items) }
    ensures rows { OnOk result ((b : NameId) (k : ℕ)
        → has (row_of rows.new.items b) k
        ≡ (has (row_of rows.old.items b) k || (nat_eq b.rank name.rank && has heirs.now k))) }
{
    let row = rows[name.rank as usize].union(alloc, heirs)?;
    rows[name.rank as usize] = row;
    Ok(())
}

/// The rows of the first `names` names. The heirs of protocols are computed only if there are associated types.
fn rows(
    alloc: Global,
    protocols: &Protocols,
    ordered: &Ordered,
    pairs: &[ProtocolName],
    names: usize,
) -> Result<Vec<Bits>, AllocError>
    requires names { (d : ProtocolName) → Contains pairs.now d → d.name.rank < names }
    requires all { (p : ProtoId) → p.rank < length protocols.now.protocols
        → Contains ordered.now p }
    ensures { IfOk result (λ rows. AreRows ordered.now (has_member (inherits_by protocols.now.places
        protocols.now.resolved.inherits) pairs.now) rows.items) }
{
    let mut rows = no_rows(alloc, names)?;
    if pairs.is_empty() {
        return Ok(rows);
    }
    let heirs = Heirs::of(alloc, protocols, ordered)?;
    for d in pairs {
        let places = places_of(alloc, protocols, ordered, &heirs, d.proto)?;
        add(alloc, &places, d.name, &mut rows)?;
    }
    Ok(rows)
}
