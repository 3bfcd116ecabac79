//! What holds of the world of each text.
ghost use Rattle.std.specs.Prelude.{◌≡◌, ◌↔◌, ◌<◌, ◌≤◌, All, Contains, List, Option, Some, false, length, map, slice_get, ℕ};
ghost use Rattle.swreq_lexicon.specs.swreq_decl.{declared.skeleton.Entity.{Entity}, declared.skeleton.ProtocolDecl.{ProtocolDecl}, declared.skeleton.QueryDecl.{QueryDecl}, declared.skeleton.Skeleton.{Skeleton}, declared.skeleton.TypeDecl.{TypeDecl}, Signatures.{signature_decls}, Skeletons.{StandsFor}};
ghost use Rattle.swreq_lexicon.specs.swreq_names.declared.signature.Signature.{Signature};
ghost use Rattle.swreq_lexicon.specs.swreq_names.Parts as parts;
ghost use Rattle.swreq_lexicon.specs.swreq_names.Parts.{Constraint};
ghost use Rattle.swreq_param.specs.{declared.ids.ParamId.{ParamId}, Terms.{Term}};
ghost use Rattle.swreq_resolve.specs.Resolving.{Resolve};
ghost use Rattle.swreq_lowering.specs.{declared.ids.FuncId.{FuncId}, declared.context.Context.{Context}, Heads.{IsOverSelf}, Queries.{TermQuery}, Signatures.{func_id, in_order}, Words.{proto_of}};
ghost use Rattle.swreq_world.specs.{ByTable.{world_by}, Closed.{IsClosed, IsInheritanceWritten}, Declarations.{HasSignature, declaration_of}, Lookups.{func_named, param_of_signature, IsNamedAt, IsParamNamed}, ReadBack.{IsReadIn, IsSaid, SayNames, SaysConstraint, SaysProtocol, SaysQuery}, Short.{IsShort}, WorldOf.{IsWorldOf, words_of}, Worlds.{IdWorld, TextWorld, signature_at}};

use swreq_lex::laws::tokens_are_slices;
use swreq_lexicon::laws::lexicon_is_one;
use swreq_lowering::laws::{lists_are_short, requirements_are_few};

/// Each signature that a skeleton declares stands at its place among the signatures, and nowhere else.
pub fn signatures_have_places()
    ensures at { (s : Skeleton) (g : Signature) → HasSignature s g
        → slice_get (in_order s) (func_id (in_order s) g).place ≡ Some g }
    ensures once { (s : Skeleton) (g : Signature) → HasSignature s g → (k : ℕ)
        → slice_get (in_order s) k ≡ Some g → (func_id (in_order s) g).place ≡ k }
{}

/// The signatures of a text in their order are those of its declarations, in written order.
pub fn world_signatures_in_written_order(text: &[u8])
    ensures { (s : Skeleton) → StandsFor text.now s
        → map (declaration_of s) (in_order s) ≡ map (λ d. Some d) (signature_decls s) }
{
    tokens_are_slices(text);
}

/// Where the names of a text resolve, what is found by names is the one signature that has them.
pub fn signatures_are_found_by_name(text: &[u8])
    ensures in_text { (s : Skeleton) (w : TextWorld) → StandsFor text.now s
        → IsWorldOf text.now s w → Resolve text.now s
        → (outer : Option (List ℕ)) (name : List ℕ) (f : FuncId)
        → (func_named w outer name ≡ Some f) ↔ IsNamedAt w outer name f }
    ensures by_table { (terms : List Term) (s : Skeleton) (w : IdWorld) → StandsFor text.now s
        → IsWorldOf text.now s (world_by terms w) → Resolve text.now s
        → (outer : Option (List ℕ)) (name : List ℕ) (f : FuncId)
        → (func_named w outer name ≡ Some f) ↔ IsNamedAt w outer name f }
{
    tokens_are_slices(text);
}

/// Where the names of a text resolve, what is found by name in a signature is the one generic parameter of it that has the name.
pub fn generic_parameters_are_found_by_name(text: &[u8])
    ensures { (terms : List Term) (s : Skeleton) (w : IdWorld) → StandsFor text.now s
        → IsWorldOf text.now s (world_by terms w) → Resolve text.now s
        → (f : FuncId) → f.place < length w.signatures → (name : List ℕ) (p : ParamId)
        → (param_of_signature w f name ≡ Some p)
        ↔ IsParamNamed text.now s (signature_at w f).signature name p }
{
    tokens_are_slices(text);
}

/// The requirements of protocols are over `τ_0_0` alone.
pub fn protocols_require_of_self()
    ensures { (text : List ℕ) (s : Skeleton) (w : TextWorld) → IsWorldOf text s w
        → All (All (λ r. IsOverSelf r.requirement)) w.requirements }
{}

/// Where the names of a text resolve, a protocol inherits another if and only if a chain of written conformances of the bare `Self`,
/// one or more, leads there.
pub fn inheritance_is_what_is_written()
    ensures { (text : List ℕ) (s : Skeleton) (w : TextWorld) → IsWorldOf text s w → Resolve text s
        → IsInheritanceWritten w }
{}

/// Where the names of a text resolve, the ids of its world say the very words that are written: of each written type, of each protocol on
/// the right of a colon, of all that a constraint names, of the names that a protocol declares, and of each query.
pub fn ids_say_what_is_written()
    ensures types { (text : List ℕ) (s : Skeleton) (w : TextWorld)
        → IsWorldOf text s w → Resolve text s
        → (part : parts.Scope) (t : TypeDecl) → Contains (parts.types s) (part, t)
        → (context : Context) → IsReadIn (words_of text s w) part context
        → IsSaid (words_of text s w) context t }
    ensures entities { (text : List ℕ) (s : Skeleton) (w : TextWorld)
        → IsWorldOf text s w → Resolve text s
        → (part : parts.Scope) (e : Entity)
        → Contains (parts.entities s) (part, e) → e.layout ≡ false
        → SaysProtocol text w.lexicon (proto_of (words_of text s w) e.span) e.span }
    ensures constraints { (text : List ℕ) (s : Skeleton) (w : TextWorld)
        → IsWorldOf text s w → Resolve text s
        → (part : parts.Scope) (c : Constraint) → Contains (parts.constraints s) (part, c)
        → (context : Context) → IsReadIn (words_of text s w) part context
        → SaysConstraint (words_of text s w) context c }
    ensures declared { (text : List ℕ) (s : Skeleton) (w : TextWorld)
        → IsWorldOf text s w → Resolve text s
        → (p : ProtocolDecl) → Contains s.protocols p → SayNames (words_of text s w) p }
    ensures queries { (text : List ℕ) (s : Skeleton) (w : TextWorld)
        → IsWorldOf text s w → Resolve text s
        → (k : ℕ) (q : QueryDecl) → slice_get s.queries k ≡ Some q
        → (a : TermQuery) × (slice_get w.queries k ≡ Some a) × SaysQuery text s w a q }
{}

/// Where the names of a text resolve, all that is written in its world is of the world. What a protocol inherits is written, and goes
/// down by depth.
pub fn worlds_are_closed(text: &[u8])
    ensures closed { (s : Skeleton) (w : TextWorld)
        → StandsFor text.now s → IsWorldOf text.now s w → Resolve text.now s → IsClosed w }
{
    tokens_are_slices(text);
}

/// Numbers of 32 bits count the requirements of each protocol and of each signature in the world of a text of at most 1,048,576 bytes.
pub fn worlds_are_short(text: &[u8])
    ensures world { length text.now ≤ 1048576 → (s : Skeleton) (w : TextWorld)
        → StandsFor text.now s → IsWorldOf text.now s w → IsShort w }
    ensures by_table { length text.now ≤ 1048576 → (terms : List Term) (s : Skeleton) (w : IdWorld)
        → StandsFor text.now s → IsWorldOf text.now s (world_by terms w) → IsShort w }
{
    lists_are_short(text);
    requirements_are_few(text);
}

/// A text has at most one world.
pub fn world_is_one(text: &[u8])
    ensures { (s : Skeleton) (w v : TextWorld) → IsWorldOf text.now s w
        → IsWorldOf text.now s v → w ≡ v }
{
    lexicon_is_one(text);
}
