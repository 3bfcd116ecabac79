// Associated types by rank.
ghost use Rattle.std.specs.{Prelude.{◌≡◌, ◌↔◌, ◌||◌, ◌<◌, ◌≤◌, ◌++◌, ◌∷◌, [], ℕ, nat_eq, List, length, map, slice_get, slice_set, position, slice_index_or, Some, MatchOption, IfOk, OnOk, Contains}, List.{list_any}, Option.{option_map}, List.Sorted.{IsStrictlySortedBy}};
ghost use Rattle.swreq_lexicon.specs.{Associated.{assoc_cmp}, Keys.{key, pair_of}, Lexicons.{is_pair, assoc_at}, Symbols.{has_member, AreDeclarers}, Views.{inherits_by}};

use crate::pair::ProtocolName;
use crate::protocols::Protocols;
use std::alloc::{AllocError, Global};
use std::marker::Model;
use swreq_derive::param::{AssocId, NameId, ProtoId};
use swreq_rank::{Lists, Ranked};

/// What associated types are ranked by: their name, whether their protocol inherits one that declares it, and their protocol.
#[derive(Clone, Copy, PartialEq, Eq, PartialOrd, Ord)]
pub struct AssocKey {
    pub name: NameId,
    pub inherited: bool,
    pub proto: ProtoId,
}

impl AssocKey {
    fn of(pair: ProtocolName, inherited: bool) -> Self
        ensures { result ≡ record { name = pair.name; inherited = inherited; proto = pair.proto } }
    {
        AssocKey {
            name: pair.name,
            inherited,
            proto: pair.proto,
        }
    }
}

/// At most 1,048,576 associated types, by rank and in written order, and for each name the protocols that declare it.
#[derive(Drop)]
pub struct Associated {
    ranked: Ranked<AssocKey>,
    written: Vec<ProtocolName>,
    declarers: Lists<ProtoId>,
}

impl Model for Associated {
    ghost use Rattle.std.specs.Prelude.{List, map, length, ◌≤◌, ◌↔◌, Contains};
    ghost use Rattle.swreq_lexicon.specs.{declared.pair.ProtocolName.{ProtocolName}, Keys.{pair_of}, Symbols.{AreDeclarers}};

    ghost Value = { List ProtocolName };

    ghost view = { λ a. map pair_of a.ranked };

    ghost invariant = { λ a. AreDeclarers (map pair_of a.ranked) a.declarers
        × (length a.ranked ≤ 1048576)
        × ((d : ProtocolName) → Contains a.written.items d ↔ Contains (map pair_of a.ranked) d) };
}

impl Associated {
    /// The associated types of these pairs, whose names have ranks below `names`.
    pub fn of(
        alloc: Global,
        protocols: &Protocols,
        names: usize,
        pairs: Vec<ProtocolName>,
    ) -> Result<Associated, AllocError>
        requires few { length pairs.items ≤ 1048576 }
        requires within { (d : ProtocolName) → Contains pairs.items d → d.name.rank < names }
        ensures within { IfOk result
            (λ x. (d : ProtocolName) → Contains x d → d.name.rank < names) }
        ensures same { IfOk result
            (λ x. (d : ProtocolName) → Contains x d ↔ Contains pairs.items d) }
        ensures sorted { IfOk result (λ x. IsStrictlySortedBy
            (assoc_cmp (inherits_by protocols.now.places protocols.now.resolved.inherits) x) x) }
    {
        let declarers = declarers_of(alloc, names, &pairs)?;
        let ranked = Ranked::of(keys(alloc, protocols, &declarers, &pairs)?);
        let _sorted = ranked.items();
        Ok(Associated {
            ranked,
            written: pairs,
            declarers,
        })
    }

    /// How many associated types there are.
    pub fn len(&self) -> u32
        ensures { result ≡ length self.now }
    {
        self.ranked.items().len() as u32
    }

    /// The associated type of a protocol and a name that it declares.
    pub fn find(&self, protocol: ProtoId, name: NameId) -> Option<AssocId>
        ensures { result ≡ option_map assoc_at (position (is_pair protocol name) self.now) }
    {
        let _keys = self.ranked.items();
        let proto = protocol;
        let pair = ProtocolName { proto, name };
        match self.ranked.find(&AssocKey::of(pair, false)) {
            Some(rank) => Some(AssocId { rank: rank as u32 }),
            None => {
                let rank = self.ranked.find(&AssocKey::of(pair, true))?;
                Some(AssocId { rank: rank as u32 })
            }
        }
    }

    /// The protocol and the name of an associated type.
    pub fn pair(&self, associated: AssocId) -> ProtocolName
        requires { associated.rank < length self.now }
        ensures { slice_get self.now associated.rank ≡ Some result }
    {
        let key = self.ranked.items()[associated.rank as usize];
        ProtocolName {
            proto: key.proto,
            name: key.name,
        }
    }

    /// The protocols and the names of the associated types, in written order. Each is there as often as it is written.
    pub fn written(&self) -> &[ProtocolName]
        ensures { (d : ProtocolName) → Contains result.now d ↔ Contains self.now d }
    {
        &self.written
    }

    /// Whether the protocol, or one that it inherits, declares the name.
    pub fn has_member(&self, protocols: &Protocols, protocol: ProtoId, name: NameId) -> bool
        ensures { result ≡ has_member (inherits_by protocols.now.places
            protocols.now.resolved.inherits) self.now protocol name }
    {
        has_name(protocols, &self.declarers, protocol, name)
    }
}

/// For each name, by rank, the protocols that declare it.
fn declarers_of(
    alloc: Global,
    names: usize,
    pairs: &[ProtocolName],
) -> Result<Lists<ProtoId>, AllocError>
    requires { (d : ProtocolName) → Contains pairs.now d → d.name.rank < names }
    ensures { IfOk result (λ lists. AreDeclarers pairs.now lists) }
{
    let mut lists = Lists::new(alloc, names)?;
    for d in pairs {
        lists.push(d.name.rank as usize, d.proto)?;
    }
    Ok(lists)
}

/// Whether some protocol that the protocol inherits declares the name.
fn inherits_name(
    protocols: &Protocols,
    lists: &Lists<ProtoId>,
    protocol: ProtoId,
    name: NameId,
) -> bool
    ensures { result ≡ list_any
        (inherits_by protocols.now.places protocols.now.resolved.inherits protocol)
        (slice_index_or lists.now name.rank []) }
{
    protocols.may_inherit(protocol)
        && lists
            .at(name.rank as usize)
            .iter()
            .any(|q| protocols.inherits(protocol, *q))
}

/// Whether the protocol, or one that it inherits, is among those that declare the name.
fn has_name(protocols: &Protocols, lists: &Lists<ProtoId>, protocol: ProtoId, name: NameId) -> bool
    ensures { result ≡ list_any (λ q. nat_eq protocol.rank q.rank
        || inherits_by protocols.now.places protocols.now.resolved.inherits protocol q)
        (slice_index_or lists.now name.rank []) }
{
    lists
        .at(name.rank as usize)
        .iter()
        .any(|q| protocol == *q || protocols.inherits(protocol, *q))
}

/// The keys by which the associated types of these pairs are ranked.
fn keys(
    alloc: Global,
    protocols: &Protocols,
    lists: &Lists<ProtoId>,
    pairs: &[ProtocolName],
) -> Result<Vec<AssocKey>, AllocError>
    requires { AreDeclarers pairs.now lists.now }
    ensures { IfOk result (λ keys. keys.items ≡ map (key (inherits_by protocols.now.places
        protocols.now.resolved.inherits) pairs.now) pairs.now) }
{
    let mut keys = Vec::new(alloc);
    for d in pairs {
        let inherited = inherits_name(protocols, lists, d.proto, d.name);
        keys.push(AssocKey::of(*d, inherited))?;
    }
    Ok(keys)
}
