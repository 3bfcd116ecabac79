//! Laws on canonical requirements, generators and minimised lists, over the definitions alone.
ghost use Rattle.std.specs.Prelude.{◌≡◌, ◌↔◌, ◌⊎◌, List, [], ◌∷◌, ◌++◌, Contains};
ghost use Rattle.swreq_derive.specs.swreq_param.{declared.ids.ParamId.{ParamId}, Terms.{Term}};
ghost use Rattle.swreq_derive.specs.{Derivation.{TermRequirement, TermStatement, TermFacts, Source, Derivable}, Derivation.TermRequirement.{Equals}, Derivation.TermStatement.{Requires}, Derivation.Source.{Written}, Equivalence.{AreEquivalent}};
ghost use Rattle.swreq_derive.specs.swreq_lemmas.WellFounded.{IsWellFounded};
ghost use Rattle.swreq_canonical.specs.{Canonical.{IsCanonical, HasReducedTypes, principal}, CanonicalOrder.{RequirementBefore, IsStrictlySorted}, Generators.{Follows, IsGenerator, IsGeneratorList, AreGeneratorsTold, AreEnough, Takes, AreDecided}, Minimised.{Leaves, IsMinimised, IsIndependent}};

/// The order of requirements is strict and transitive, and nothing goes down in it for ever. It is total on the canonical requirements of a
/// list, of which a same-type requirement shares its principal type with no other. Such requirements can be sorted strictly, and a strictly
/// sorted list is fixed by its members.
pub fn canonical_requirements_are_ordered()
    ensures strict { (r : TermRequirement) → RequirementBefore r r → ⊥ }
    ensures transitive { (r q t : TermRequirement) → RequirementBefore r q → RequirementBefore q t
        → RequirementBefore r t }
    ensures well_founded { IsWellFounded RequirementBefore }
    ensures total { (f : TermFacts) (s : Source) (r q : TermRequirement)
        → IsCanonical f s r → IsCanonical f s q
        → RequirementBefore r q ⊎ ((r ≡ q) ⊎ RequirementBefore q r) }
    ensures alone { (f : TermFacts) (s : Source) (u v : Term) (q : TermRequirement)
        → IsCanonical f s (Equals u v) → IsCanonical f s q → v ≡ principal q → Equals u v ≡ q }
    ensures sorted { (f : TermFacts) (s : Source) (list : List TermRequirement)
        → ((r : TermRequirement) → Contains list r → IsCanonical f s r)
        → (out : List TermRequirement) × IsStrictlySorted out
        × ((r : TermRequirement) → Contains out r ↔ Contains list r) }
    ensures one_list { (list others : List TermRequirement) → IsStrictlySorted list
        → IsStrictlySorted others
        → ((r : TermRequirement) → Contains list r ↔ Contains others r) → list ≡ others }
{}

/// Where each valid type parameter has a reduced type, what a list derives follows from canonical requirements of it.
pub fn canonical_requirements_suffice()
    ensures { (f : TermFacts) (params : List ParamId) (list : List TermRequirement)
        → HasReducedTypes f (Written params list)
        → (st : TermStatement) → Derivable f (Written params list) st
        → Follows f params (IsCanonical f (Written params list)) st }
{}

/// A list has at most one list of generators. Where it is told which canonical requirements are generators, these derive exactly what the
/// list derives.
pub fn generators_suffice()
    ensures one { (f : TermFacts) (params : List ParamId)
        (list generators others : List TermRequirement)
        → IsGeneratorList f params list generators
        → IsGeneratorList f params list others → generators ≡ others }
    ensures same { (f : TermFacts) (params : List ParamId) (list generators : List TermRequirement)
        → HasReducedTypes f (Written params list) → AreGeneratorsTold f params list
        → IsGeneratorList f params list generators
        → AreEquivalent f params list generators }
{}

/// Of candidates that are enough, those that one takes going through them in order are exactly the generators. So, where it is decided
/// what lists of candidates derive, there is a list of generators.
pub fn generators_are_taken()
    ensures taken { (f : TermFacts) (params : List ParamId)
        (list candidates out : List TermRequirement)
        → AreEnough f params list candidates → Takes f params [] candidates out
        → IsGeneratorList f params list out }
    ensures told { (f : TermFacts) (params : List ParamId)
        (list candidates out : List TermRequirement)
        → AreEnough f params list candidates → Takes f params [] candidates out
        → AreGeneratorsTold f params list }
    ensures some { (f : TermFacts) (params : List ParamId) (list candidates : List TermRequirement)
        → AreEnough f params list candidates → AreDecided f params candidates
        → (out : List TermRequirement) × Takes f params [] candidates out
        × IsGeneratorList f params list out }
{}

/// A list derives the same without a member that is derivable from the others, wherever it stands: dropping keeps what is derivable, in any
/// order. From the last to the first it also keeps the order, and leaves one list, of which no member is derivable from the others.
pub fn dropping_keeps()
    ensures in_any_order { (f : TermFacts) (params : List ParamId)
        (before after : List TermRequirement) (r : TermRequirement)
        → Derivable f (Written params (before ++ after)) (Requires r)
        → AreEquivalent f params (before ++ r ∷ after) (before ++ after) }
    ensures same { (f : TermFacts) (params : List ParamId) (all left : List TermRequirement)
        → Leaves f params [] all left → AreEquivalent f params all left }
    ensures independent { (f : TermFacts) (params : List ParamId) (all left : List TermRequirement)
        → Leaves f params [] all left → IsIndependent f params left }
    ensures sorted { (f : TermFacts) (params : List ParamId) (all left : List TermRequirement)
        → Leaves f params [] all left → IsStrictlySorted all → IsStrictlySorted left }
    ensures one { (f : TermFacts) (params : List ParamId) (all left other : List TermRequirement)
        → Leaves f params [] all left → Leaves f params [] all other → left ≡ other }
{}

/// The minimised list has canonical members, strictly sorted, none of which is derivable from the others; it derives the list and is
/// derived from it. There is one where there are candidates that are enough, and it is decided what lists of them derive.
pub fn minimised_list_is_minimal()
    ensures canonical { (f : TermFacts) (params : List ParamId)
        (list minimised : List TermRequirement)
        → IsMinimised f params list minimised
        → (r : TermRequirement) → Contains minimised r → IsCanonical f (Written params list) r }
    ensures sorted { (f : TermFacts) (params : List ParamId) (list minimised : List TermRequirement)
        → IsMinimised f params list minimised → IsStrictlySorted minimised }
    ensures independent { (f : TermFacts) (params : List ParamId)
        (list minimised : List TermRequirement)
        → IsMinimised f params list minimised → IsIndependent f params minimised }
    ensures same { (f : TermFacts) (params : List ParamId) (list minimised : List TermRequirement)
        → HasReducedTypes f (Written params list) → AreGeneratorsTold f params list
        → IsMinimised f params list minimised
        → AreEquivalent f params list minimised }
    ensures some { (f : TermFacts) (params : List ParamId) (list candidates : List TermRequirement)
        → AreEnough f params list candidates → AreDecided f params candidates
        → (minimised : List TermRequirement) × IsMinimised f params list minimised }
{}

/// Equivalent lists have the same canonical requirements, the same generators and one minimised list. Lists with one minimised list are
/// equivalent.
pub fn equivalent_lists_agree()
    ensures canonical { (f : TermFacts) (params : List ParamId) (list others : List TermRequirement)
        → AreEquivalent f params list others
        → (r : TermRequirement)
        → IsCanonical f (Written params list) r ↔ IsCanonical f (Written params others) r }
    ensures generators { (f : TermFacts) (params : List ParamId)
        (list others : List TermRequirement)
        → AreEquivalent f params list others
        → (r : TermRequirement) → IsGenerator f params list r ↔ IsGenerator f params others r }
    ensures minimised { (f : TermFacts) (params : List ParamId)
        (list others minimised also : List TermRequirement)
        → AreEquivalent f params list others
        → IsMinimised f params list minimised
        → IsMinimised f params others also → minimised ≡ also }
    ensures converse { (f : TermFacts) (params : List ParamId)
        (list others minimised : List TermRequirement)
        → HasReducedTypes f (Written params list) → AreGeneratorsTold f params list
        → HasReducedTypes f (Written params others) → AreGeneratorsTold f params others
        → IsMinimised f params list minimised → IsMinimised f params others minimised
        → AreEquivalent f params list others }
{}
