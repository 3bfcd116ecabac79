//! Laws on blocks and candidates, over the definitions alone.
ghost use Rattle.std.specs.{Prelude.{◌≡◌, ◌↔◌, ℕ, List, [], ◌∷◌, Some, Contains, slice_get}, List.{All, AllZip}};
ghost use Rattle.swreq_canonical.specs.swreq_param.declared.ids.ParamId.{ParamId};
ghost use Rattle.swreq_canonical.specs.swreq_derive.{Derivation.{TermRequirement, TermStatement, TermFacts, Source, Derivable}, Derivation.Source.{Written}, Equivalence.{AreEquivalent}};
ghost use Rattle.swreq_canonical.specs.{Canonical.{IsCanonical, HasReducedTypes}, Generators.{IsGenerator, IsGeneratorList, AreEnough, Takes, AreDecided}, Minimised.{Leaves, IsMinimised}};
ghost use Rattle.swreq_canonical.specs.swreq_word.{Least.{IsLeast, IsMinimal}, Relations.{Linked}};
ghost use Rattle.swreq_rounds.specs.swreq_rule.{declared.rules.Rule.{Rule}, Steps.{Step}};
ghost use Rattle.swreq_rounds.specs.swreq_pair.CriticalPairs.{PairsMeet};
ghost use Rattle.swreq_rounds.specs.swreq_complete.Reduced.{IsReducedSystem};
ghost use Rattle.swreq_rounds.specs.Presents.{ProtocolEquation, AreProtocolRules, AreListRules};
ghost use Rattle.swreq_canonical.specs.swreq_correspondence.{Symbols.{Word, Symbols, AreSymbolsOf}, Equations.{AreCongruent, UsableEquation}, Types.{HasFirsts}};
ghost use Rattle.swreq_candidates.specs.{Blocks.{Cut, AreMembersDeclared, AreMembersNamed, blocks, joined_words}, Blocks.Place.{Outside}, Candidates.{IsCandidate, IsCandidateList, IsReadOff}, Completed.{HasLeastWords, IsCompleted, IsWordOfText}};

/// A word is cut into blocks in one way, and its blocks make the word. Two words are congruent if and only if they have the same number of
/// blocks, which are congruent one by one. So a word is least if and only if its blocks are, and a minimal word is one block.
pub fn congruence_goes_by_blocks()
    ensures one { (m : Symbols) (f : TermFacts) (s : Source) (u : Word) (k l : Cut m f s Outside u)
        → blocks k ≡ blocks l }
    ensures whole { (m : Symbols) (f : TermFacts) (s : Source) (u : Word) (k : Cut m f s Outside u)
        → joined_words (blocks k) ≡ u }
    ensures congruent { (m : Symbols) (f : TermFacts) (params : List ParamId)
        (list : List TermRequirement)
        → AreSymbolsOf m f → AreMembersNamed m f
        → (u v : Word) (k : Cut m f (Written params list) Outside u)
        (l : Cut m f (Written params list) Outside v)
        → AreCongruent m f (Written params list) u v
        ↔ AllZip (AreCongruent m f (Written params list)) (blocks k) (blocks l) }
    ensures least { (m : Symbols) (f : TermFacts) (params : List ParamId)
        (list : List TermRequirement)
        → AreSymbolsOf m f → AreMembersNamed m f
        → (u : Word) (k : Cut m f (Written params list) Outside u)
        → IsLeast (AreCongruent m f (Written params list)) u
        ↔ All (IsLeast (AreCongruent m f (Written params list))) (blocks k) }
    ensures minimal { (m : Symbols) (f : TermFacts) (params : List ParamId)
        (list : List TermRequirement)
        → AreSymbolsOf m f → AreMembersNamed m f
        → (u : Word) (k : Cut m f (Written params list) Outside u)
        → IsMinimal (AreCongruent m f (Written params list)) u → blocks k ≡ u ∷ [] }
{}

/// Where each member symbol is of a name that its protocol or an inherited one declares, `Self` of the protocol conforms to a protocol
/// that declares it.
pub fn inherited_members_are_named()
    ensures { (m : Symbols) (f : TermFacts) → AreMembersDeclared m f → AreMembersNamed m f }
{}

/// Rules of the protocols, and of a list, whose pairs meet, give the least words, and their reduced system is that of the congruence.
pub fn complete_rules_give_least_words()
    ensures protocols { (m : Symbols) (f : TermFacts) (rules : List Rule)
        → PairsMeet rules → AreProtocolRules m f rules → HasLeastWords (ProtocolEquation m f) }
    ensures list { (m : Symbols) (f : TermFacts) (params : List ParamId)
        (list : List TermRequirement) (rules : List Rule)
        → PairsMeet rules → AreListRules m f params list rules
        → HasLeastWords (UsableEquation m f (Written params list)) }
    ensures system { (m : Symbols) (f : TermFacts) (params : List ParamId)
        (list : List TermRequirement) (rules system : List Rule)
        → AreListRules m f params list rules → IsReducedSystem (Linked (Step rules)) system
        → IsReducedSystem (AreCongruent m f (Written params list)) system }
{}

/// Where the completions of the protocols and of a list have ended, each valid type parameter of the list has a reduced type, each
/// statement is derivable or not, and each word of the text is cut into blocks. Where those of all lists of some requirements have ended,
/// it is decided what these lists derive.
pub fn ended_completions_decide()
    ensures reduced { (m : Symbols) (f : TermFacts) (params : List ParamId)
        (list : List TermRequirement)
        → IsCompleted m f params list → HasReducedTypes f (Written params list) }
    ensures first { (m : Symbols) (f : TermFacts) (params : List ParamId)
        (list : List TermRequirement)
        → IsCompleted m f params list → HasFirsts f (Written params list) }
    ensures decided { (m : Symbols) (f : TermFacts) (params : List ParamId)
        (list : List TermRequirement)
        → IsCompleted m f params list → (st : TermStatement)
        → Dec (Derivable f (Written params list) st) }
    ensures cut { (m : Symbols) (f : TermFacts) (params : List ParamId)
        (list : List TermRequirement)
        → IsCompleted m f params list → (u : Word) → IsWordOfText m u
        → Cut m f (Written params list) Outside u }
    ensures lists { (m : Symbols) (f : TermFacts) (params : List ParamId)
        (candidates : List TermRequirement)
        → ((some : List TermRequirement) → ((r : TermRequirement) → Contains some r
        → Contains candidates r) → IsCompleted m f params some)
        → AreDecided f params candidates }
{}

/// Where they have ended, each generator is a candidate, which is read off a rule of the reduced system, and each candidate is canonical. A
/// rule says at most one thing.
pub fn generators_are_candidates()
    ensures generator { (m : Symbols) (f : TermFacts) (params : List ParamId)
        (list : List TermRequirement) (r : TermRequirement)
        → IsCompleted m f params list → IsGenerator f params list r
        → IsCandidate m f (Written params list) r }
    ensures canonical { (m : Symbols) (f : TermFacts) (params : List ParamId)
        (list : List TermRequirement) (r : TermRequirement)
        → IsCompleted m f params list → IsCandidate m f (Written params list) r
        → IsCanonical f (Written params list) r }
    ensures one { (m : Symbols) (f : TermFacts) (s : Source)
        (left right : Word) (r q : TermRequirement)
        → IsReadOff m f s left right r → IsReadOff m f s left right q → r ≡ q }
    ensures enough { (m : Symbols) (f : TermFacts) (params : List ParamId)
        (list candidates : List TermRequirement)
        → IsCompleted m f params list → IsCandidateList m f (Written params list) candidates
        → AreEnough f params list candidates }
{}

/// The candidates are read off the rules of the reduced system. Where the completions have ended, there is a list of them.
pub fn candidates_are_read_off()
    ensures rules { (m : Symbols) (f : TermFacts) (s : Source)
        (system : List Rule) (r : TermRequirement)
        → IsReducedSystem (AreCongruent m f s) system
        → IsCandidate m f s r
        ↔ ((k : ℕ) × (rule : Rule) × (slice_get system k ≡ Some rule)
        × IsReadOff m f s rule.left rule.right r) }
    ensures list { (m : Symbols) (f : TermFacts) (params : List ParamId)
        (list : List TermRequirement) (system : List Rule)
        → IsCompleted m f params list
        → IsReducedSystem (AreCongruent m f (Written params list)) system
        → (candidates : List TermRequirement)
        × IsCandidateList m f (Written params list) candidates }
{}

/// Where the completions have ended, what one takes going through the list of candidates in order is the list of generators, and what is
/// then left of it after dropping is the minimised list. So, where it is decided what lists of candidates derive, there are both.
pub fn generators_are_taken_from_candidates()
    ensures generators { (m : Symbols) (f : TermFacts) (params : List ParamId)
        (list candidates taken : List TermRequirement)
        → IsCompleted m f params list → IsCandidateList m f (Written params list) candidates
        → Takes f params [] candidates taken
        → IsGeneratorList f params list taken }
    ensures minimised { (m : Symbols) (f : TermFacts) (params : List ParamId)
        (list candidates taken left : List TermRequirement)
        → IsCompleted m f params list → IsCandidateList m f (Written params list) candidates
        → Takes f params [] candidates taken
        → Leaves f params [] taken left → IsMinimised f params list left }
    ensures some_generators { (m : Symbols) (f : TermFacts) (params : List ParamId)
        (list candidates : List TermRequirement)
        → IsCompleted m f params list → IsCandidateList m f (Written params list) candidates
        → AreDecided f params candidates
        → (generators : List TermRequirement) × IsGeneratorList f params list generators }
    ensures some_minimised { (m : Symbols) (f : TermFacts) (params : List ParamId)
        (list candidates : List TermRequirement)
        → IsCompleted m f params list → IsCandidateList m f (Written params list) candidates
        → AreDecided f params candidates
        → (minimised : List TermRequirement) × IsMinimised f params list minimised }
{}

/// Where the completions have ended and one has gone through the list of candidates, the minimised list derives exactly what the list
/// derives. Two such lists are equivalent if and only if they have one minimised list.
pub fn minimised_lists_stand_for_lists()
    ensures same { (m : Symbols) (f : TermFacts) (params : List ParamId)
        (list candidates taken minimised : List TermRequirement)
        → IsCompleted m f params list → IsCandidateList m f (Written params list) candidates
        → Takes f params [] candidates taken
        → IsMinimised f params list minimised → AreEquivalent f params list minimised }
    ensures equivalent { (m : Symbols) (f : TermFacts) (params : List ParamId)
        (list candidates taken minimised : List TermRequirement)
        (others candidates_too taken_too minimised_too : List TermRequirement)
        → IsCompleted m f params list → IsCandidateList m f (Written params list) candidates
        → Takes f params [] candidates taken
        → IsCompleted m f params others → IsCandidateList m f (Written params others) candidates_too
        → Takes f params [] candidates_too taken_too
        → IsMinimised f params list minimised → IsMinimised f params others minimised_too
        → AreEquivalent f params list others ↔ (minimised ≡ minimised_too) }
{}
