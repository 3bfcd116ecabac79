// The protocols, names, associated types and member symbols of a text, by rank.
ghost use Rattle.std.specs.Prelude.{◌≡◌, ◌↔◌, ◌<◌, ◌≤◌, ◌++◌, ℕ, IsTrue, List, length, map, slice_get, Some, MatchOption, IfOk, OnOk, Contains};
ghost use Rattle.swreq_names.specs.{Mentioned.{mentioned}, Names.{HasDeclared}, Spaces.{word}};
ghost use Rattle.swreq_lexicon.specs.{declared.pair.ProtocolName.{ProtocolName}, Lexicons.{pair, proto_by, name_by, assoc_by}, Texts.{IsSmall, IsLexiconOf, declared_in}, Views.{inherits, depth, HasMember}};
ghost use Rattle.swreq_rank.specs.Ranks.{IsRanking, bytes_cmp};

use crate::associated::Associated;
use crate::pair::ProtocolName;
use crate::protocols::{Protocols, rank_or_first};
use crate::symbols::Symbols;
use std::alloc::{AllocError, Global};
use std::marker::Model;
use swreq_decl::{AssocDecl, ProtocolDecl, Skeleton};
use swreq_derive::param::{AssocId, NameId, ProtoId};
use swreq_names::{Names, member_names, word};
use swreq_rank::Ranks;

/// What the symbols of a text's words stand for: its protocols, its names of associated types and of members, its associated types and its
/// member symbols, each by rank.
///
/// A protocol is of the text if and only if its rank is below `protocols`. The same holds of a name and `names`, of an associated type and
/// `associated`, and of a member symbol and `members`. No call but `of` takes memory.
#[derive(Drop)]
pub struct Lexicon {
    protocols: Protocols,
    names: Ranks,
    associated: Associated,
    symbols: Symbols,
}

impl Model for Lexicon {
    ghost use Rattle.std.specs.Prelude.{length, ◌≤◌};
    ghost use Rattle.swreq_lexicon.specs.{Symbols.{has_member, symbols_below, AreRows, AreStarts}, Views.{LexiconView, inherits_by}};

    ghost Value = { LexiconView };

    ghost view = { λ x. record {
      protocols = x.protocols.protocols;
      places = x.protocols.places;
      written_order = x.protocols.written_order;
      names = x.names;
      associated = x.associated;
      symbols = symbols_below x.symbols.order (has_member
          (inherits_by x.protocols.places x.protocols.resolved.inherits) x.associated)
          (length x.names);
      resolved = x.protocols.resolved;
    } };

    ghost invariant = { λ x. (length x.names ≤ 1048576) × (length x.symbols.order ≤ 1048576)
        × AreStarts x.symbols.order (has_member
        (inherits_by x.protocols.places x.protocols.resolved.inherits) x.associated)
        (length x.names) x.symbols.starts
        × AreRows x.symbols.order (has_member
        (inherits_by x.protocols.places x.protocols.resolved.inherits) x.associated)
        x.symbols.rows };
}

impl Lexicon {
    /// The lexicon of a text with this skeleton, whose names refer to what `resolved` says.
    pub fn of(
        alloc: Global,
        text: &[u8],
        skeleton: &Skeleton,
        resolved: Names,
    ) -> Result<Lexicon, AllocError>
        requires declared { HasDeclared text.now skeleton.now resolved }
        requires small { IsSmall text.now skeleton.now }
        ensures { IfOk result (IsLexiconOf text.now skeleton.now) }
    {
        let names = names_of(alloc, text, skeleton)?;
        let protocols = Protocols::of(alloc, text, skeleton.protocols.items(), resolved)?;
        let pairs = pairs_of(alloc, text, skeleton, &protocols, &names)?;
        let associated = Associated::of(alloc, &protocols, names.len(), pairs)?;
        let symbols = Symbols::of(alloc, &protocols, &associated, names.len())?;
        Ok(Lexicon {
            protocols,
            names,
            associated,
            symbols,
        })
    }

    /// The number of protocols.
    pub fn protocols(&self) -> u32
        ensures { result ≡ length self.now.protocols }
    {
        self.protocols.len()
    }

    /// The number of names of associated types and of members.
    pub fn names(&self) -> u32
        ensures { result ≡ length self.now.names }
    {
        self.names.len() as u32
    }

    /// The number of associated types.
    pub fn associated(&self) -> u32
        ensures { result ≡ length self.now.associated }
    {
        self.associated.len()
    }

    /// The number of member symbols `[P:A]`.
    pub fn members(&self) -> u64
        ensures { result ≡ length self.now.symbols }
    {
        self.symbols.len(self.names.len())
    }

    /// What the names of the text refer to.
    pub fn resolved(&self) -> &Names
        ensures { result.now ≡ self.now.resolved }
    {
        self.protocols.resolved()
    }

    /// The name of a protocol.
    pub fn proto_name(&self, protocol: ProtoId) -> &[u8]
        requires { protocol.rank < length self.now.protocols }
        ensures { slice_get self.now.protocols protocol.rank ≡ Some result.now }
    {
        self.protocols.name(protocol)
    }

    /// The bytes of a name.
    pub fn name(&self, name: NameId) -> &[u8]
        requires { name.rank < length self.now.names }
        ensures { slice_get self.now.names name.rank ≡ Some result.now }
    {
        self.names.name(name.rank as usize)
    }

    /// The protocol at a place in written order, from 0.
    pub fn proto_at(&self, place: u32) -> ProtoId
        requires { place < length self.now.protocols }
        ensures { slice_get self.now.written_order place ≡ Some result }
    {
        self.protocols.at(place)
    }

    /// The protocol and the name of an associated type.
    pub fn assoc(&self, associated: AssocId) -> ProtocolName
        requires { associated.rank < length self.now.associated }
        ensures { slice_get self.now.associated associated.rank ≡ Some result }
    {
        self.associated.pair(associated)
    }

    /// The protocol with this name, or None if and only if there is none.
    pub fn find_proto(&self, name: &[u8]) -> Option<ProtoId>
        ensures { MatchOption result (Contains self.now.protocols name.now → ⊥)
            (λ p. slice_get self.now.protocols p.rank ≡ Some name.now) }
    {
        self.protocols.find(name)
    }

    /// The name with these bytes, or None if and only if there is none.
    pub fn find_name(&self, name: &[u8]) -> Option<NameId>
        ensures { MatchOption result (Contains self.now.names name.now → ⊥)
            (λ a. slice_get self.now.names a.rank ≡ Some name.now) }
    {
        let rank = self.names.find(name)?;
        Some(NameId { rank: rank as u32 })
    }

    /// The protocol with this name, or the one of rank 0 if there is none.
    pub fn proto_id(&self, name: &[u8]) -> ProtoId
        ensures { result ≡ proto_by self.now.protocols name.now }
    {
        self.protocols.id(name)
    }

    /// The name with these bytes, or the one of rank 0 if there is none.
    pub fn name_id(&self, name: &[u8]) -> NameId
        ensures { result ≡ name_by self.now.names name.now }
    {
        NameId {
            rank: rank_or_first(&self.names, name),
        }
    }

    /// The associated type of a name that a protocol declares, or the one of rank 0 if it does not declare the name.
    pub fn assoc_id(&self, protocol: ProtoId, name: NameId) -> AssocId
        ensures { result ≡ assoc_by self.now.associated protocol name }
    {
        match self.associated.find(protocol, name) {
            Some(d) => d,
            None => AssocId { rank: 0 },
        }
    }

    /// Whether `protocol` inherits `inherited`, directly or by others.
    pub fn inherits(&self, protocol: ProtoId, inherited: ProtoId) -> bool
        ensures { result ≡ inherits self.now protocol inherited }
    {
        self.protocols.inherits(protocol, inherited)
    }

    /// How many protocols the protocol inherits.
    pub fn depth(&self, protocol: ProtoId) -> u32
        ensures { result ≡ depth self.now protocol }
    {
        self.protocols.depth(protocol)
    }

    /// The associated type of a name that a protocol declares, or None if and only if it does not declare the name.
    pub fn declares(&self, protocol: ProtoId, name: NameId) -> Option<AssocId>
        ensures { MatchOption result (Contains self.now.associated (pair protocol name) → ⊥)
            (λ d. slice_get self.now.associated d.rank ≡ Some (pair protocol name)) }
    {
        self.associated.find(protocol, name)
    }

    /// Whether a protocol has the member name.
    pub fn has_member(&self, protocol: ProtoId, name: NameId) -> bool
        ensures { IsTrue result ↔ HasMember self.now protocol name }
    {
        self.symbols
            .has_member(&self.protocols, &self.associated, protocol, name)
    }

    /// The rank of the member symbol `[P:A]`, or None if and only if there is none.
    pub fn member_rank(&self, protocol: ProtoId, name: NameId) -> Option<u64>
        ensures { MatchOption result (Contains self.now.symbols (pair protocol name) → ⊥)
            (λ m. slice_get self.now.symbols m ≡ Some (pair protocol name)) }
    {
        self.symbols.find(
            &self.protocols,
            &self.associated,
            self.names.len(),
            protocol,
            name,
        )
    }

    /// The protocol and the name of the member symbol of a rank.
    pub fn member_at(&self, rank: u64) -> ProtocolName
        requires { rank < length self.now.symbols }
        ensures { slice_get self.now.symbols rank ≡ Some result }
    {
        self.symbols
            .pair(&self.protocols, &self.associated, self.names.len(), rank)
    }
}

/// The names of associated types and of members, by rank.
pub fn names_of(alloc: Global, text: &[u8], skeleton: &Skeleton) -> Result<Ranks, AllocError>
    ensures { IfOk result (IsRanking bytes_cmp (Contains (mentioned text.now skeleton.now))) }
{
    let names = member_names(alloc, text, skeleton)?;
    let _count = names.len();
    Ok(names)
}

/// Adds the names that a protocol declares.
fn add_declared(
    text: &[u8],
    names: &Ranks,
    proto: ProtoId,
    members: &[AssocDecl],
    pairs: &mut Vec<ProtocolName>,
) -> Result<(), AllocError>
    requires { length names.now ≤ 1048576 }
    ensures { OnOk result (pairs.new.items ≡ pairs.old.items
        ++ map (λ m. pair proto (name_by names.now (word text.now m.name))) members.now) }
{
    for m in members {
        let rank = rank_or_first(names, word(text, m.name));
        let name = NameId { rank };
        pairs.push(ProtocolName { proto, name })?;
    }
    Ok(())
}

/// The names that these protocols declare, each with its protocol, in written order.
fn declared_in(
    alloc: Global,
    text: &[u8],
    protocols: &Protocols,
    names: &Ranks,
    written: &[ProtocolDecl],
) -> Result<Vec<ProtocolName>, AllocError>
    requires { length names.now ≤ 1048576 }
    ensures { IfOk result
        (λ pairs. pairs.items
        ≡ declared_in text.now protocols.now.protocols names.now written.now) }
{
    let mut pairs = Vec::new(alloc);
    for p in written {
        let proto = protocols.id(word(text, p.name));
        add_declared(text, names, proto, p.members.items(), &mut pairs)?;
    }
    Ok(pairs)
}

/// The pairs of a protocol and an associated type that the text declares, by the ranks of its names.
fn pairs_of(
    alloc: Global,
    text: &[u8],
    skeleton: &Skeleton,
    protocols: &Protocols,
    names: &Ranks,
) -> Result<Vec<ProtocolName>, AllocError>
    requires small { IsSmall text.now skeleton.now }
    requires names { IsRanking bytes_cmp (Contains (mentioned text.now skeleton.now)) names.now }
    requires few { length names.now ≤ 1048576 }
    ensures is { IfOk result (λ pairs.
        pairs.items
        ≡ declared_in text.now protocols.now.protocols names.now skeleton.now.protocols) }
    ensures few { IfOk result (λ pairs. length pairs.items ≤ 1048576) }
    ensures within { IfOk result
        (λ pairs. (d : ProtocolName) → Contains pairs.items d → d.name.rank < length names.now) }
{
    let pairs = declared_in(alloc, text, protocols, names, skeleton.protocols.items())?;
    Ok(pairs)
}
