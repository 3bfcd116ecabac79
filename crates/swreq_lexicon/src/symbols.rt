// Member symbols by rank.
ghost use Rattle.std.specs.Prelude.{◌≡◌, ◌↔◌, ◌<◌, ◌≤◌, ◌+◌, ◌*◌, ℕ, List, length, map, take, sum, slice_get, slice_index, Some, MatchOption, Contains, IfOk};
ghost use Rattle.swreq_closure.specs.Bits.{count_below, has};
ghost use Rattle.swreq_derive.specs.swreq_param.declared.ids.ProtoId.{ProtoId};
ghost use Rattle.swreq_lexicon.specs.{Associated.{name, order_cmp}, Keys.{order_keys}, Lexicons.{pair}, Symbols.{has_member, having, row_of, symbols_below, AreRows, AreStarts}, Views.{inherits_by}, declared.pair.ProtocolName.{ProtocolName}};
ghost use Rattle.swreq_rank.specs.Ranks.{IsRanking};

use crate::associated::Associated;
use crate::members::Members;
use crate::ordered::Ordered;
use crate::pair::ProtocolName;
use crate::protocols::Protocols;
use std::alloc::{AllocError, Global};
use std::cmp::Reverse;
use std::marker::Model;
use swreq_derive::param::{NameId, ProtoId};
use swreq_rank::Ranked;

/// What protocols are ordered by: how many protocols they inherit, more first, and their rank.
#[derive(Clone, Copy, PartialEq, Eq, PartialOrd, Ord)]
pub struct OrderKey {
    pub depth: Reverse<u32>,
    pub proto: ProtoId,
}

/// The protocols in their order within each name, and the places where the member symbols of each name begin.
///
/// The member symbols themselves are not kept: a chain of 20,000 protocols that each declare a name has 200 million of them.
#[derive(Drop)]
pub struct Symbols {
    ordered: Ordered,
    starts: Vec<u64>,
    members: Members,
}

impl Model for Symbols {
    ghost use Rattle.swreq_lexicon.specs.Symbols.{SymbolsView};

    ghost Value = { SymbolsView };

    ghost view = { λ s. record { order = s.ordered; starts = s.starts.items; rows = s.members } };
}

impl Symbols {
    /// The member symbols of these protocols and of the first `names` names.
    pub fn of(
        alloc: Global,
        protocols: &Protocols,
        associated: &Associated,
        names: usize,
    ) -> Result<Symbols, AllocError>
        requires names { names ≤ 1048576 }
        requires within { (d : ProtocolName) → Contains associated.now d → d.name.rank < names }
        ensures order { IfOk result (λ s. IsRanking (order_cmp (inherits_by protocols.now.places
            protocols.now.resolved.inherits) (length protocols.now.protocols))
            (λ p. p.rank < length protocols.now.protocols) s.order) }
        ensures few { IfOk result (λ s. length s.order ≤ 1048576) }
        ensures starts { IfOk result (λ s. AreStarts s.order (has_member (inherits_by
            protocols.now.places protocols.now.resolved.inherits) associated.now) names s.starts) }
        ensures rows { IfOk result (λ s. AreRows s.order (has_member (inherits_by
            protocols.now.places protocols.now.resolved.inherits) associated.now) s.rows) }
    {
        let protos = order(alloc, protocols)?;
        let ordered = Ordered::of(alloc, protos, protocols.len())?;
        let members = Members::of(alloc, protocols, &ordered, associated, names)?;
        let counts = counts(alloc, &members, ordered.protos().len(), names)?;
        let starts = starts(alloc, &counts)?;
        Ok(Symbols {
            ordered,
            starts,
            members,
        })
    }

    /// How many member symbols the first `names` names have.
    pub fn len(&self, names: usize) -> u64
        requires { names < length self.now.starts }
        ensures { result ≡ slice_index self.now.starts names }
    {
        self.starts[names]
    }

    /// Whether the protocol, or one that it inherits, declares the name.
    pub fn has_member(
        &self,
        protocols: &Protocols,
        associated: &Associated,
        protocol: ProtoId,
        name: NameId,
    ) -> bool
        requires { AreRows self.now.order (has_member (inherits_by protocols.now.places
            protocols.now.resolved.inherits) associated.now) self.now.rows }
        ensures { result ≡ has_member (inherits_by protocols.now.places
            protocols.now.resolved.inherits) associated.now protocol name }
    {
        self.members
            .has(protocols, &self.ordered, associated, protocol, name)
    }

    /// The rank of the member symbol of a protocol and a name.
    pub fn find(
        &self,
        protocols: &Protocols,
        associated: &Associated,
        names: usize,
        protocol: ProtoId,
        name: NameId,
    ) -> Option<u64>
        requires names { names ≤ 1048576 }
        requires few { length self.now.order ≤ 1048576 }
        requires starts { AreStarts self.now.order (has_member (inherits_by protocols.now.places
            protocols.now.resolved.inherits) associated.now) names self.now.starts }
        requires rows { AreRows self.now.order (has_member (inherits_by protocols.now.places
            protocols.now.resolved.inherits) associated.now) self.now.rows }
        ensures { MatchOption result
            (Contains (symbols_below self.now.order (has_member (inherits_by protocols.now.places
            protocols.now.resolved.inherits) associated.now) names) (pair protocol name) → ⊥)
            (λ m.
            slice_get (symbols_below self.now.order (has_member (inherits_by protocols.now.places
            protocols.now.resolved.inherits) associated.now) names) m ≡ Some (pair protocol name)) }
    {
        if (name.rank as usize) < names
            && self
                .members
                .has(protocols, &self.ordered, associated, protocol, name)
        {
            let place = self.ordered.place_of(protocol)?;
            let before = self.members.count_before(place, name);
            Some(self.starts[name.rank as usize] + before as u64)
        } else {
            None
        }
    }

    /// The protocol and the name of the member symbol of a rank.
    pub fn pair(
        &self,
        protocols: &Protocols,
        associated: &Associated,
        names: usize,
        rank: u64,
    ) -> ProtocolName
        requires names { names ≤ 1048576 }
        requires starts { AreStarts self.now.order (has_member (inherits_by protocols.now.places
            protocols.now.resolved.inherits) associated.now) names self.now.starts }
        requires rows { AreRows self.now.order (has_member (inherits_by protocols.now.places
            protocols.now.resolved.inherits) associated.now) self.now.rows }
        requires within { rank < length (symbols_below self.now.order (has_member (inherits_by
            protocols.now.places protocols.now.resolved.inherits) associated.now) names) }
        ensures { slice_get (symbols_below self.now.order
            (has_member (inherits_by protocols.now.places protocols.now.resolved.inherits)
            associated.now) names) rank ≡ Some result }
    {
        let place = last_from(&self.starts, names, rank);
        let name = NameId { rank: place as u32 };
        let proto = nth(
            protocols,
            associated,
            &self.members,
            &self.ordered,
            name,
            rank - self.starts[place],
        );
        ProtocolName { proto, name }
    }
}

/// The keys by which the protocols are ordered.
fn keys(alloc: Global, protocols: &Protocols) -> Result<Vec<OrderKey>, AllocError>
    ensures { IfOk result (λ keys. keys.items
        ≡ order_keys (inherits_by protocols.now.places protocols.now.resolved.inherits)
        (length protocols.now.protocols) (length protocols.now.protocols)) }
{
    let mut keys = Vec::new(alloc);
    for rank in 0..protocols.len() {
        let proto = ProtoId { rank };
        let depth = Reverse(protocols.depth(proto));
        keys.push(OrderKey { depth, proto })?;
    }
    Ok(keys)
}

/// The protocols of these keys.
fn protos(alloc: Global, keys: &[OrderKey]) -> Result<Vec<ProtoId>, AllocError>
    ensures { IfOk result (λ ps. ps.items ≡ map (λ k. k.proto) keys.now) }
{
    keys.iter().map(|k| k.proto).collect(alloc)
}

/// The protocols in their order within each name: those that inherit more protocols first.
fn order(alloc: Global, protocols: &Protocols) -> Result<Vec<ProtoId>, AllocError>
    ensures ranking { IfOk result (λ order. IsRanking (order_cmp (inherits_by protocols.now.places
        protocols.now.resolved.inherits) (length protocols.now.protocols))
        (λ p. p.rank < length protocols.now.protocols) order.items) }
    ensures few { IfOk result (λ order. length order.items ≤ 1048576) }
{
    let _count = protocols.len();
    let ranked = Ranked::of(keys(alloc, protocols)?);
    let order = protos(alloc, ranked.items())?;
    Ok(order)
}

/// How many member symbols each of the first `names` names has. There are `protocols` protocols.
fn counts(
    alloc: Global,
    members: &Members,
    protocols: usize,
    names: usize,
) -> Result<Vec<u64>, AllocError>
    requires { names ≤ 1048576 }
    ensures len { IfOk result (λ counts. length counts.items ≡ names) }
    ensures each { IfOk result (λ counts. (a : ℕ) → a < names
        → slice_index counts.items a ≡ count_below (has (row_of members.now (name a))) protocols) }
{
    let mut counts = Vec::new(alloc);
    for rank in 0..names {
        let a = NameId { rank: rank as u32 };
        let count = members.count_before(protocols, a);
        counts.push(count as u64)?;
    }
    Ok(counts)
}

/// The sums of the first counts: of none, of one, and so on up to all.
fn starts(alloc: Global, counts: &[u64]) -> Result<Vec<u64>, AllocError>
    requires few { length counts.now ≤ 1048576 }
    requires small { (a : ℕ) → slice_index counts.now a ≤ 1048576 }
    ensures len { IfOk result (λ starts. length starts.items ≡ length counts.now + 1) }
    ensures each { IfOk result (λ starts.
        (a : ℕ) → a ≤ length counts.now → slice_index starts.items a ≡ sum (take a counts.now)) }
{
    let mut starts = Vec::new(alloc);
    let mut start = 0;
    starts.push(start)?;
    for count in counts {
        start += *count;
        starts.push(start)?;
    }
    Ok(starts)
}

/// The last of the first `names` names whose member symbols begin at this rank or before.
fn last_from(starts: &[u64], names: usize, rank: u64) -> usize
    requires len { length starts.now ≡ names + 1 }
    requires from { slice_index starts.now 0 ≤ rank }
    requires to { rank < slice_index starts.now names }
    ensures within { result < names }
    ensures from { slice_index starts.now result ≤ rank }
    ensures to { rank < slice_index starts.now (result + 1) }
{
    let mut low = 0;
    let mut high = names;
    while low + 1 < high {
        let middle = low + (high - low) / 2;
        if starts[middle] <= rank {
            low = middle;
        } else {
            high = middle;
        }
    }
    low
}

/// The protocol at this place among those that have the member name.
fn nth(
    protocols: &Protocols,
    associated: &Associated,
    members: &Members,
    ordered: &Ordered,
    name: NameId,
    place: u64,
) -> ProtoId
    requires rows { AreRows ordered.now (has_member (inherits_by protocols.now.places
        protocols.now.resolved.inherits) associated.now) members.now }
    requires within { place < length (having ordered.now (has_member
        (inherits_by protocols.now.places protocols.now.resolved.inherits) associated.now) name) }
    ensures { slice_get (having ordered.now (has_member (inherits_by protocols.now.places
        protocols.now.resolved.inherits) associated.now) name) place ≡ Some result }
{
    let mut left = place;
    for q in ordered.protos() {
        let here = members.has(protocols, ordered, associated, *q, name);
        if here && left == 0 {
            return *q;
        }
        if here {
            left -= 1;
        }
    }
    ProtoId { rank: 0 }
}
