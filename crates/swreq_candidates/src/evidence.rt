//! Laws on dropping by evidence, over the definitions alone.
ghost use Rattle.std.specs.Prelude.{◌≡◌, List, ◌∷◌, ◌++◌, Contains};
ghost use Rattle.swreq_canonical.specs.swreq_param.declared.ids.ParamId.{ParamId};
ghost use Rattle.swreq_canonical.specs.swreq_derive.{Derivation.{TermRequirement, TermFacts, Derivable}, Derivation.Source.{Written}, Derivation.TermStatement.{Requires}, WellFormed.{HasValidSides}};
ghost use Rattle.swreq_canonical.specs.swreq_word.Relations.{Linked};
ghost use Rattle.swreq_rounds.specs.swreq_rule.{declared.rules.Rule.{Rule}, Steps.{Step}};
ghost use Rattle.swreq_canonical.specs.swreq_correspondence.{Symbols.{Word, Symbols, AreSymbolsOf, AreOfText, IsInText}, Equations.{Linking}};
ghost use Rattle.swreq_canonical.specs.Generators.{IsGeneratorList, AreGeneratorsTold};
ghost use Rattle.swreq_candidates.specs.Evidence.{IsPlain, RestEquation, HasEvidence, AreRulesOfRest};

/// Where every type of the rest is plain in it, evidence for a requirement whose type parameters are valid from the rest allows one to drop
/// it. So it is for a generator where all generators before it are in the rest, as they are where one goes from the last to the first.
pub fn evidence_is_enough()
    ensures derives { (m : Symbols) (f : TermFacts) (params : List ParamId)
        (rest : List TermRequirement) (r : TermRequirement)
        → AreSymbolsOf m f → AreOfText m f
        → IsInText m (Written params rest) → IsPlain f params rest
        → HasValidSides f (Written params rest) r → HasEvidence m f params rest r
        → Derivable f (Written params rest) (Requires r) }
    ensures drops { (m : Symbols) (f : TermFacts) (params : List ParamId)
        (list generators front after left : List TermRequirement)
        (r : TermRequirement)
        → AreSymbolsOf m f → AreOfText m f → IsInText m (Written params list)
        → AreGeneratorsTold f params list → IsGeneratorList f params list generators
        → generators ≡ front ++ r ∷ after
        → ((q : TermRequirement) → Contains left q → Contains after q)
        → IsPlain f params (front ++ left) → HasEvidence m f params (front ++ left) r
        → Derivable f (Written params (front ++ left)) (Requires r) }
{}

/// Steps by rules of the protocols and of the rest, forth and back, are links of evidence.
pub fn steps_are_evidence()
    ensures { (m : Symbols) (f : TermFacts) (params : List ParamId) (rest : List TermRequirement)
        (rules : List Rule) (u v : Word)
        → AreRulesOfRest m f params rest rules → Linked (Step rules) u v
        → Linking (RestEquation m f params rest) u v }
{}
