//! Laws on conformance paths and the search for them, over the definitions alone.
ghost use Rattle.std.specs.Prelude.{◌≡◌, ℕ, List, ◌++◌, ◌∷◌};
ghost use Rattle.swreq_machine.specs.swreq_param.{declared.ids.ParamId.{ParamId}, declared.ids.ProtoId.{ProtoId}, Terms.{Term}};
ghost use Rattle.swreq_machine.specs.swreq_derive.{Derivation.{Derivable, TermFacts, TermRequirement}, Derivation.Source.{Written}, Derivation.TermRequirement.{Conforms}, Derivation.TermStatement.{Requires}, Paths.{IsConformancePath}, WellFormed.{AreProtocolsWellFormed, IsListWellFormed}};
ghost use Rattle.swreq_print.specs.swreq_word.declared.symbols.Symbol.{Symbol};
ghost use Rattle.swreq_print.specs.swreq_rule.declared.rules.Rule.{Rule};
ghost use Rattle.swreq_machine.specs.swreq_complete.Complete.{IsComplete};
ghost use Rattle.swreq_machine.specs.swreq_symbols.Vanishing.{IsLeastBy, Links};
ghost use Rattle.swreq_confpath.specs.{Numbers.{AreNumbers}, Parting.{PartsForGood}, Routes.{AreAlike, IsNotAfter, LeadTo, TermPlace}, Routes.TermPlace.{Conformance, Start}};

/// Numbers that lead to a place like one that was reached need not be tried: on a well formed text what goes on from the one goes on from
/// the other, to places that are alike, and numbers that do not come after others do not come after them when the same numbers follow both.
pub fn nothing_better_is_lost()
    ensures alike { (f : TermFacts) (params : List ParamId) (written : List TermRequirement)
        → AreProtocolsWellFormed f → IsListWellFormed f (Written params written)
        → (a b d : TermPlace) (ns : List ℕ) → AreAlike f (Written params written) a b
        → LeadTo f written b ns d
        → (c : TermPlace) × LeadTo f written a ns c × AreAlike f (Written params written) c d }
    ensures order { (xs ys ns : List ℕ) → IsNotAfter xs ys → IsNotAfter (xs ++ ns) (ys ++ ns) }
{}

/// The numbers of a conformance path for a derivable `[T : P]` are those that lead from the start to a place like the conformance.
pub fn paths_lead_from_the_start()
    ensures leads { (f : TermFacts) (params : List ParamId) (written : List TermRequirement)
        (t : Term) (p : ProtoId)
        (first : ℕ) (steps : List ℕ)
        → Derivable f (Written params written) (Requires (Conforms t p))
        → IsConformancePath f params written first steps t p
        → (d : TermPlace) × LeadTo f written Start (first ∷ steps) d
        × AreAlike f (Written params written) d (Conformance t p) }
    ensures path { (f : TermFacts) (params : List ParamId) (written : List TermRequirement)
        (t : Term) (p : ProtoId)
        (first : ℕ) (steps : List ℕ) (d : TermPlace) → LeadTo f written Start (first ∷ steps) d
        → AreAlike f (Written params written) d (Conformance t p)
        → IsConformancePath f params written first steps t p }
{}

/// The numbers of a conformance path are those of conformances, so the path has a text.
pub fn paths_have_texts()
    ensures { (f : TermFacts) (params : List ParamId) (written : List TermRequirement)
        (t : Term) (p : ProtoId)
        (first : ℕ) (steps : List ℕ) → IsConformancePath f params written first steps t p
        → AreNumbers f written first steps }
{}

/// A least word that has parted for good from another least word is the front of no word of that one's class.
pub fn parted_words_stay_apart()
    ensures { (rules : List Rule) → IsComplete rules → (u v tail : List Symbol)
        → IsLeastBy rules u → IsLeastBy rules v
        → PartsForGood rules u v → Links rules (v ++ tail) u → ⊥ }
{}
