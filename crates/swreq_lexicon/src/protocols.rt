// The protocols of a text by rank.
ghost use Rattle.std.specs.{Prelude.{◌≡◌, ◌<◌, ◌≤◌, ◌+◌, ◌*◌, ◌/◌, ◌%◌, ◌++◌, ◌∷◌, [], ◌↔◌, ℕ, false, List, length, map, cond, slice_get, slice_index, slice_index_or, unwrap_or, Some, MatchOption, IfOk, Contains}, List.{position_from}, Str.{bytes_eq}};
ghost use Rattle.swreq_closure.specs.{Bits.{has, room}, Chains.{AreWithin, IsClosureOf}, Walks.{AreApart}};
ghost use Rattle.swreq_names.specs.Spaces.{word, declarations, place};
ghost use Rattle.swreq_lexicon.specs.{Associated.{depth}, Lexicons.{proto_by}, Heirs.{HaveProtocols, LeadToProtocols}, PlaceSets.{IsSetOf}, Texts.{protocol_names}, Views.{place_by, inherits_by}};
ghost use Rattle.swreq_rank.specs.Ranks.{Bytes, IsRanking, bytes_cmp, rank};

use std::alloc::{AllocError, Global};
use std::marker::Model;
use swreq_closure::Bits;
use swreq_decl::ProtocolDecl;
use swreq_derive::param::ProtoId;
use swreq_names::{Names, word};
use swreq_rank::Ranks;
use swreq_text::Seq;

/// The protocols of a text by rank, and which of them inherits which.
#[derive(Drop)]
pub struct Protocols {
    ranks: Ranks,
    /// For each protocol, by rank, the first place of its name in written order.
    places: Vec<usize>,
    /// The set of these places.
    firsts: Bits,
    written_order: Vec<ProtoId>,
    resolved: Names,
}

impl Model for Protocols {
    ghost use Rattle.std.specs.Prelude.{◌≡◌, ◌≤◌, length};
    ghost use Rattle.swreq_closure.specs.Bits.{room};
    ghost use Rattle.swreq_lexicon.specs.{Heirs.{HaveProtocols}, PlaceSets.{IsSetOf}, Views.{ProtocolsView}};

    ghost Value = { ProtocolsView };

    ghost view = { λ p. record {
      protocols = p.ranks;
      places = p.places.items;
      written_order = p.written_order.items;
      resolved = p.resolved;
    } };

    ghost invariant = { λ p. (length p.ranks ≤ 1048576)
        × (length p.ranks ≤ length p.written_order.items)
        × (length p.places.items ≡ length p.ranks)
        × (room p.firsts ≤ 18446744073709551615) × IsSetOf p.places.items p.firsts
        × HaveProtocols p.resolved.declared.protocols p.places.items (length p.ranks) };
}

impl Protocols {
    /// The protocols of these names, in their written order.
    pub fn of(
        alloc: Global,
        text: &[u8],
        protocols: &[ProtocolDecl],
        resolved: Names,
    ) -> Result<Protocols, AllocError>
        requires small { length protocols.now ≤ 1048576 }
        requires declared { resolved.declared.protocols
            ≡ declarations text.now (map (λ p. p.name) protocols.now) }
        ensures ranking { IfOk result (λ x.
            IsRanking bytes_cmp (Contains (protocol_names text.now protocols.now)) x.protocols) }
        ensures placed { IfOk result (λ x. length x.places ≡ length x.protocols) }
        ensures places { IfOk result
            (λ x. (p : ProtoId) (name : Bytes) → slice_get x.protocols p.rank ≡ Some name
            → position_from (bytes_eq name) 0 (protocol_names text.now protocols.now)
            ≡ Some (place_by x.places p)) }
        ensures written { IfOk result (λ x. x.written_order
            ≡ map (λ p. proto_by x.protocols (word text.now p.name)) protocols.now) }
        ensures resolved { IfOk result (λ x. x.resolved ≡ resolved) }
    {
        let ranks = ranks_of(alloc, text, protocols)?;
        let places = places(alloc, &resolved, &ranks)?;
        let firsts = set_of(alloc, &places, protocols.len())?;
        let written_order = written_order(alloc, text, protocols, &ranks)?;
        Ok(Protocols {
            ranks,
            places,
            firsts,
            written_order,
            resolved,
        })
    }

    /// How many protocols there are.
    pub fn len(&self) -> u32
        ensures is { result ≡ length self.now.protocols }
        ensures small { result ≤ 1048576 }
    {
        self.ranks.len() as u32
    }

    /// The name of a protocol.
    pub fn name(&self, protocol: ProtoId) -> &[u8]
        requires { protocol.rank < length self.now.protocols }
        ensures { slice_get self.now.protocols protocol.rank ≡ Some result.now }
    {
        self.ranks.name(protocol.rank as usize)
    }

    /// The protocol with this name.
    pub fn find(&self, name: &[u8]) -> Option<ProtoId>
        ensures { MatchOption result (Contains self.now.protocols name.now → ⊥)
            (λ p. slice_get self.now.protocols p.rank ≡ Some name.now) }
    {
        let rank = self.ranks.find(name)?;
        Some(ProtoId { rank: rank as u32 })
    }

    /// The protocol with this name, or the first one if there is none.
    pub fn id(&self, name: &[u8]) -> ProtoId
        ensures { result ≡ proto_by self.now.protocols name.now }
    {
        ProtoId {
            rank: rank_or_first(&self.ranks, name),
        }
    }

    /// The protocol at a place in written order, from 0.
    pub fn at(&self, place: u32) -> ProtoId
        requires { place < length self.now.protocols }
        ensures { slice_get self.now.written_order place ≡ Some result }
    {
        self.written_order[place as usize]
    }

    /// The first place of the name of a protocol in written order.
    pub fn place(&self, protocol: ProtoId) -> usize
        ensures { result ≡ place_by self.now.places protocol }
    {
        match self.places.get(protocol.rank as usize) {
            Some(place) => *place,
            None => 0,
        }
    }

    /// Whether `protocol` inherits `inherited`, directly or by others.
    pub fn inherits(&self, protocol: ProtoId, inherited: ProtoId) -> bool
        ensures { result
            ≡ inherits_by self.now.places self.now.resolved.inherits protocol inherited }
    {
        self.resolved
            .inherits(self.place(protocol), self.place(inherited))
    }

    /// The protocols that each one inherits directly, by places in written order.
    pub fn direct(&self) -> &[Seq<usize>]
        ensures is { result.now ≡ self.now.resolved.direct }
        ensures closure { IsClosureOf result.now self.now.resolved.inherits }
        ensures within { AreWithin result.now }
        ensures protocols { LeadToProtocols self.now.places (length self.now.protocols) result.now }
    {
        self.resolved.direct()
    }

    /// False only if the protocol inherits none.
    pub fn may_inherit(&self, protocol: ProtoId) -> bool
        ensures { result ≡ false → (q : ProtoId)
            → inherits_by self.now.places self.now.resolved.inherits protocol q ≡ false }
    {
        self.resolved.inheritance().may_lead(self.place(protocol))
    }

    /// How many protocols the protocol inherits.
    pub fn depth(&self, protocol: ProtoId) -> u32
        ensures { result ≡ depth (inherits_by self.now.places self.now.resolved.inherits)
            (length self.now.protocols) protocol }
    {
        let inheritance = self.resolved.inheritance();
        inheritance.count(self.place(protocol), &self.firsts) as u32
    }

    /// What the names of the text refer to.
    pub fn resolved(&self) -> &Names
        ensures { result.now ≡ self.now.resolved }
    {
        &self.resolved
    }
}

/// The rank of a name, or 0 if it has none.
pub fn rank_or_first(ranks: &Ranks, name: &[u8]) -> u32
    requires { length ranks.now ≤ 1048576 }
    ensures { result ≡ rank ranks.now name.now }
{
    let _count = ranks.len();
    match ranks.find(name) {
        Some(rank) => rank as u32,
        None => 0,
    }
}

/// The names of the protocols, in written order.
fn names(alloc: Global, text: &[u8], protocols: &[ProtocolDecl]) -> Result<Vec<Seq<u8>>, AllocError>
    ensures { IfOk result (λ names. names.items ≡ protocol_names text.now protocols.now) }
{
    let mut names = Vec::new(alloc);
    for p in protocols {
        names.push(Seq::new(word(text, p.name).to_vec(alloc)?))?;
    }
    Ok(names)
}

/// The names of the protocols by rank.
fn ranks_of(alloc: Global, text: &[u8], protocols: &[ProtocolDecl]) -> Result<Ranks, AllocError>
    ensures ranking { IfOk result
        (IsRanking bytes_cmp (Contains (protocol_names text.now protocols.now))) }
    ensures few { IfOk result (λ ranks. length ranks ≤ length protocols.now) }
{
    let ranks = Ranks::of(names(alloc, text, protocols)?);
    let _count = ranks.len();
    Ok(ranks)
}

/// The first place of a name among the names of protocols in written order, or 0 if it is not one of them.
fn first_place(resolved: &Names, name: &[u8]) -> usize
    ensures { result ≡ unwrap_or (place resolved.now.declared.protocols name.now) 0 }
{
    resolved.declared().protocols().find(name).unwrap_or(0)
}

/// For each protocol, by rank, the first place of its name in written order.
fn places(alloc: Global, resolved: &Names, ranks: &Ranks) -> Result<Vec<usize>, AllocError>
    ensures { IfOk result (λ places. places.items
        ≡ map (λ name. unwrap_or (place resolved.now.declared.protocols name) 0) ranks.now) }
{
    let mut places = Vec::new(alloc);
    for rank in 0..ranks.len() {
        places.push(first_place(resolved, ranks.name(rank)))?;
    }
    Ok(places)
}

/// The set of these places, which are below a bound.
fn set_of(alloc: Global, places: &[usize], bound: usize) -> Result<Bits, AllocError>
    requires within { (r : ℕ) → r < length places.now → slice_index_or places.now r 0 < bound }
    requires apart { AreApart places.now }
    ensures set { IfOk result (IsSetOf places.now) }
    ensures room { IfOk result (λ set. room set ≡ 64 * (bound / 64 + 1)) }
{
    let mut set = Bits::with_room(alloc, bound)?;
    for place in places {
        set.insert(*place);
    }
    Ok(set)
}

/// The protocols in written order.
fn written_order(
    alloc: Global,
    text: &[u8],
    protocols: &[ProtocolDecl],
    ranks: &Ranks,
) -> Result<Vec<ProtoId>, AllocError>
    requires { length ranks.now ≤ 1048576 }
    ensures { IfOk result (λ order.
        order.items ≡ map (λ p. proto_by ranks.now (word text.now p.name)) protocols.now) }
{
    let mut order = Vec::new(alloc);
    for p in protocols {
        order.push(ProtoId {
            rank: rank_or_first(ranks, word(text, p.name)),
        })?;
    }
    Ok(order)
}
