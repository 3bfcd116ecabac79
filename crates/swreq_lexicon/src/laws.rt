//! What holds of the ranks of each text.

ghost use Rattle.std.specs.{Prelude.{◌≡◌, ◌↔◌, ◌<◌, ℕ, IsTrue, List, length, Contains, Some, slice_get}, List.{IsDistinct}, Str.{bytes_eq}};
ghost use Rattle.swreq_decl.specs.declared.skeleton.Skeleton.{Skeleton};
ghost use Rattle.swreq_derive.specs.{Derivation.{AssociatedType}, Facts.{AreOneToOne}};
ghost use Rattle.swreq_names.specs.{Mentioned.{mentioned}, Spaces.{place, spaces}};
ghost use Rattle.swreq_derive.specs.swreq_param.{declared.ids.NameId.{NameId}, declared.ids.ProtoId.{ProtoId}};
ghost use Rattle.swreq_lexicon.specs.{declared.pair.ProtocolName.{ProtocolName}, Lexicons.{pair, proto_by, name_by, assoc_by, associated_types}, Texts.{IsLexiconOf, protocol_names, declared_in}, Views.{LexiconView, IsProtocol, place_of, inherits, depth, InheritsName}};
ghost use Rattle.swreq_rank.specs.Ranks.{Bytes};

use swreq_names::laws::names_are_one;

/// Each name of a protocol, each name of an associated type or of a member, and each associated type has its rank.
pub fn names_have_ranks(text: &[u8])
    ensures protocols { (s : Skeleton) (x : LexiconView) → IsLexiconOf text.now s x → (name : Bytes)
        → Contains (protocol_names text.now s.protocols) name
        → slice_get x.protocols (proto_by x.protocols name).rank ≡ Some name }
    ensures names { (s : Skeleton) (x : LexiconView) → IsLexiconOf text.now s x → (name : Bytes)
        → Contains (mentioned text.now s) name
        → slice_get x.names (name_by x.names name).rank ≡ Some name }
    ensures associated { (s : Skeleton) (x : LexiconView) → IsLexiconOf text.now s x
        → (d : ProtocolName) → Contains (declared_in text.now x.protocols x.names s.protocols) d
        → slice_get x.associated (assoc_by x.associated d.proto d.name).rank ≡ Some d }
{}

/// The written order has protocols of the text, and each protocol stands there at its place. If no name is declared twice, each protocol
/// stands there once. A name that is declared as a protocol means the protocol at its first place.
pub fn protocols_have_places(text: &[u8])
    ensures protocols { (s : Skeleton) (x : LexiconView) → IsLexiconOf text.now s x
        → (k : ℕ) (p : ProtoId) → slice_get x.written_order k ≡ Some p → IsProtocol x p }
    ensures places { (s : Skeleton) (x : LexiconView) → IsLexiconOf text.now s x → (p : ProtoId)
        → IsProtocol x p → slice_get x.written_order (place_of x p) ≡ Some p }
    ensures once { (s : Skeleton) (x : LexiconView) → IsLexiconOf text.now s x
        → IsDistinct bytes_eq (protocol_names text.now s.protocols)
        → length x.written_order ≡ length x.protocols }
    ensures meant { (s : Skeleton) (x : LexiconView) → IsLexiconOf text.now s x
        → (name : Bytes) (k : ℕ) → place (spaces text.now s).protocols name ≡ Some k
        → place_of x (proto_by x.protocols name) ≡ k }
{}

/// Each declared pair of a protocol and a name has one associated type, which is its rank, and no two pairs have the same one.
pub fn associated_types_are_one_to_one(text: &[u8])
    ensures ranked { (ds : List ProtocolName) (d : AssociatedType) → Contains (associated_types ds)
        d ↔ (slice_get ds d.assoc.rank ≡ Some (pair d.proto d.name)) }
    ensures one_to_one { (s : Skeleton) (x : LexiconView) → IsLexiconOf text.now s x
        → AreOneToOne (associated_types x.associated) }
{}

/// Of two associated types, and of two member symbols, the one with the lesser name has the lesser rank.
pub fn ranks_go_by_name_first(text: &[u8])
    ensures associated { (s : Skeleton) (x : LexiconView) → IsLexiconOf text.now s x
        → (i j : ℕ) (d e : ProtocolName)
        → slice_get x.associated i ≡ Some d → slice_get x.associated j ≡ Some e
        → d.name.rank < e.name.rank → i < j }
    ensures symbols { (s : Skeleton) (x : LexiconView) → IsLexiconOf text.now s x
        → (i j : ℕ) (d e : ProtocolName)
        → slice_get x.symbols i ≡ Some d → slice_get x.symbols j ≡ Some e
        → d.name.rank < e.name.rank → i < j }
{}

/// Among the associated types of one name, those of protocols that do not inherit the name, the roots, come before those of protocols that
/// do. Roots are ordered by protocol, and so are the others.
pub fn roots_come_first(text: &[u8])
    ensures roots { (s : Skeleton) (x : LexiconView) → IsLexiconOf text.now s x
        → (i j : ℕ) (p q : ProtoId) (a : NameId)
        → slice_get x.associated i ≡ Some (pair p a) → slice_get x.associated j ≡ Some (pair q a)
        → ¬ (InheritsName x p a) → InheritsName x q a → i < j }
    ensures protocols { (s : Skeleton) (x : LexiconView) → IsLexiconOf text.now s x
        → (i j : ℕ) (p q : ProtoId) (a : NameId)
        → slice_get x.associated i ≡ Some (pair p a) → slice_get x.associated j ≡ Some (pair q a)
        → (InheritsName x p a ↔ InheritsName x q a) → p.rank < q.rank → i < j }
{}

/// Among the member symbols of one name, that of a protocol comes before that of each protocol that it inherits and that does not inherit
/// itself. A protocol that inherits more protocols comes first. Those that inherit the same number are ordered by rank.
pub fn heirs_come_first(text: &[u8])
    ensures heirs { (s : Skeleton) (x : LexiconView) → IsLexiconOf text.now s x
        → (i j : ℕ) (p q : ProtoId) (a : NameId)
        → slice_get x.symbols i ≡ Some (pair p a) → slice_get x.symbols j ≡ Some (pair q a)
        → IsTrue (inherits x p q) → ¬ (IsTrue (inherits x q q)) → i < j }
    ensures depths { (s : Skeleton) (x : LexiconView) → IsLexiconOf text.now s x
        → (i j : ℕ) (p q : ProtoId) (a : NameId)
        → slice_get x.symbols i ≡ Some (pair p a) → slice_get x.symbols j ≡ Some (pair q a)
        → depth x q < depth x p → i < j }
    ensures protocols { (s : Skeleton) (x : LexiconView) → IsLexiconOf text.now s x
        → (i j : ℕ) (p q : ProtoId) (a : NameId)
        → slice_get x.symbols i ≡ Some (pair p a) → slice_get x.symbols j ≡ Some (pair q a)
        → depth x p ≡ depth x q → p.rank < q.rank → i < j }
{}

/// A text has at most one lexicon.
pub fn lexicon_is_one(text: &[u8])
    ensures { (s : Skeleton) (x y : LexiconView) → IsLexiconOf text.now s x
        → IsLexiconOf text.now s y → x ≡ y }
{
    names_are_one(text);
}
