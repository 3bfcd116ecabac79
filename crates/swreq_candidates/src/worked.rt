//! Worked texts: blocks of words, candidates and evidence.
//!
//! Each function is one text, whose facts and lists stand in `swreq_derive` or `swreq_canonical`, and whose symbols in `swreq_correspondence` or
//! in `specs/Worked.antt`. Nothing is computed: the clauses are theorems.
ghost use Rattle.std.specs.Prelude.{◌≡◌, [], ◌∷◌};
ghost use Rattle.swreq_canonical.specs.swreq_word.declared.symbols.Symbol.TheVariants.{Proto, Member, Name};
ghost use Rattle.swreq_canonical.specs.swreq_derive.{Derivation.{TermRequirement}, Derivation.TermRequirement.{Conforms, IsAnyObject, Equals}, Worked.{of_one, of_two, τ_0_0, τ_0_1, bound, N, Q, A_of_P, endless, endless_f, shared, shared_f, layouts, layouts_f}};
ghost use Rattle.swreq_canonical.specs.swreq_correspondence.Worked.{first_param, endless_symbols, shared_symbols};
ghost use Rattle.swreq_candidates.specs.{Blocks.{Cut, AreMembersNamed, blocks}, Blocks.Place.{Outside}, Candidates.{IsCandidate, IsReadOff}, Evidence.{IsPlain, HasEvidence}, Worked.{read_word, broken_word, layouts_symbols, inherited_symbols, implied, implied_symbols, implied_rest}};
ghost use Rattle.swreq_canonical.specs.Worked.{one, two, Base, inherited, inherited_g};

/// `protocol N { associatedtype Next: N }` and `func f<T: N>()`: a word that is read is one block. Where a name is not read, it stands
/// alone, and a protocol after it begins a block of its own. The conformance of T is a candidate.
pub fn members_without_end()
    ensures named { AreMembersNamed endless_symbols endless }
    ensures one { (k : Cut endless_symbols endless (of_one endless_f) Outside read_word)
        × (blocks k ≡ read_word ∷ []) }
    ensures three { (k : Cut endless_symbols endless (of_one endless_f) Outside broken_word)
        × (blocks k ≡ (first_param ∷ []) ∷ (Name 0 ∷ []) ∷ (Proto 0 ∷ []) ∷ []) }
    ensures conformance { IsCandidate endless_symbols endless
        (of_one endless_f) (Conforms τ_0_0 N) }
{}

/// `protocol P: AnyObject { }` and `func f<T: P, U>() where U == T`: the layout of T is a candidate, and so is the equality with the
/// greater side on its right, and it alone.
pub fn equal_parameters()
    ensures layout { IsCandidate layouts_symbols layouts (of_two layouts_f) (IsAnyObject τ_0_0) }
    ensures equality { IsCandidate layouts_symbols layouts (of_two layouts_f) (Equals τ_0_0 τ_0_1) }
    ensures turned { IsCandidate layouts_symbols layouts (of_two layouts_f) (Equals τ_0_1 τ_0_0)
        → ⊥ }
{}

/// `protocol P { associatedtype A }`, `protocol Q { associatedtype A }` and `func f<T: P & Q>()`: the rule `T.[Q:A] => T.[P:A]` says
/// nothing, since the bound member of its left side has the least associated type, which is that of its right side.
pub fn one_name_in_two_protocols()
    ensures nothing { (r : TermRequirement)
        → IsReadOff shared_symbols shared (of_one shared_f) (first_param ∷ Member 1 ∷ [])
        (first_param ∷ Member 0 ∷ []) r → ⊥ }
{}

/// `protocol Base { }`, `protocol Derived: Base { }` and `func g<T: Derived>()`: evidence that the conformance of T to `Base` follows
/// leads by way of `T.[Derived].[Base]`.
pub fn conformance_by_inheritance()
    ensures plain { IsPlain inherited one inherited_g }
    ensures evidence { HasEvidence inherited_symbols inherited one
        inherited_g (Conforms τ_0_0 Base) }
{}

/// `protocol Q { }`, `protocol P { associatedtype A: Q }` and `func f<T: P, U: Q>() where T.A == U`: evidence that the conformance of U
/// follows from that of T and the equality leads by way of `T.[P:A].[Q]`. Without the conformance of T the member is not plain.
pub fn requirement_that_two_others_imply()
    ensures plain { IsPlain implied two implied_rest }
    ensures evidence { HasEvidence implied_symbols implied two implied_rest (Conforms τ_0_1 Q) }
    ensures not_plain { IsPlain implied two (Equals τ_0_1 (bound τ_0_0 A_of_P) ∷ []) → ⊥ }
{}
