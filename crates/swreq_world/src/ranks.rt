// The protocols, names, associated types and member symbols of a world, by rank.
ghost use Rattle.std.specs.Prelude.{◌≡◌, ◌↔◌, ◌<◌, IsTrue, Some, length, slice_get, Contains, MatchOption};
ghost use Rattle.swreq_lexicon.specs.{Lexicons.{pair}, Views.{inherits, depth, HasMember}};

use crate::world::World;
use swreq_lexicon::ProtocolName;
use swreq_param::{AssocId, NameId, ProtoId};

impl World {
    /// Whether `protocol` inherits `inherited`, directly or by others.
    pub fn inherits(&self, protocol: ProtoId, inherited: ProtoId) -> bool
        ensures { result ≡ inherits self.now.lexicon protocol inherited }
    {
        self.lexicon().inherits(protocol, inherited)
    }

    /// How many protocols a protocol inherits.
    pub fn depth(&self, protocol: ProtoId) -> u32
        ensures { result ≡ depth self.now.lexicon protocol }
    {
        self.lexicon().depth(protocol)
    }

    /// The associated type of a name that a protocol declares, or None if and only if it declares none.
    pub fn declares(&self, protocol: ProtoId, name: NameId) -> Option<AssocId>
        ensures { MatchOption result
            (Contains self.now.lexicon.associated (pair protocol name) → ⊥)
            (λ d. slice_get self.now.lexicon.associated d.rank ≡ Some (pair protocol name)) }
    {
        self.lexicon().declares(protocol, name)
    }

    /// The protocol and the name of an associated type.
    pub fn assoc(&self, associated: AssocId) -> ProtocolName
        requires { associated.rank < length self.now.lexicon.associated }
        ensures { slice_get self.now.lexicon.associated associated.rank ≡ Some result }
    {
        self.lexicon().assoc(associated)
    }

    /// Whether a name is a member name of a protocol.
    pub fn has_member(&self, protocol: ProtoId, name: NameId) -> bool
        ensures { IsTrue result ↔ HasMember self.now.lexicon protocol name }
    {
        self.lexicon().has_member(protocol, name)
    }

    /// The rank of the member symbol `[P:A]`, or None if and only if A is no member name of P.
    pub fn member_rank(&self, protocol: ProtoId, name: NameId) -> Option<u64>
        ensures { MatchOption result
            (Contains self.now.lexicon.symbols (pair protocol name) → ⊥)
            (λ m. slice_get self.now.lexicon.symbols m ≡ Some (pair protocol name)) }
    {
        self.lexicon().member_rank(protocol, name)
    }

    /// The number of member symbols.
    pub fn members(&self) -> u64
        ensures { result ≡ length self.now.lexicon.symbols }
    {
        self.lexicon().members()
    }

    /// The protocol and the name of the member symbol of a rank.
    pub fn member_at(&self, rank: u64) -> ProtocolName
        requires { rank < length self.now.lexicon.symbols }
        ensures { slice_get self.now.lexicon.symbols rank ≡ Some result }
    {
        self.lexicon().member_at(rank)
    }

    /// The bytes of a name.
    pub fn name(&self, name: NameId) -> &[u8]
        requires { name.rank < length self.now.lexicon.names }
        ensures { slice_get self.now.lexicon.names name.rank ≡ Some result.now }
    {
        self.lexicon().name(name)
    }

    /// The name of a protocol.
    pub fn proto_name(&self, protocol: ProtoId) -> &[u8]
        requires { protocol.rank < length self.now.lexicon.protocols }
        ensures { slice_get self.now.lexicon.protocols protocol.rank ≡ Some result.now }
    {
        self.lexicon().proto_name(protocol)
    }

    /// The protocol at a place in written order, from 0.
    pub fn proto_at(&self, place: u32) -> ProtoId
        requires { place < length self.now.lexicon.protocols }
        ensures { slice_get self.now.lexicon.written_order place ≡ Some result }
    {
        self.lexicon().proto_at(place)
    }

    /// The protocol with this name, or None if and only if there is none.
    pub fn find_proto(&self, name: &[u8]) -> Option<ProtoId>
        ensures { MatchOption result
            (Contains self.now.lexicon.protocols name.now → ⊥)
            (λ p. slice_get self.now.lexicon.protocols p.rank ≡ Some name.now) }
    {
        self.lexicon().find_proto(name)
    }

    /// The name with these bytes, or None if and only if there is none.
    pub fn find_name(&self, name: &[u8]) -> Option<NameId>
        ensures { MatchOption result
            (Contains self.now.lexicon.names name.now → ⊥)
            (λ a. slice_get self.now.lexicon.names a.rank ≡ Some name.now) }
    {
        self.lexicon().find_name(name)
    }
}
