//! Laws on words and derivations, over the definitions alone.
ghost use Rattle.std.specs.Prelude.{◌≡◌, ◌↔◌, List, [], ◌∷◌, Contains};
ghost use Rattle.swreq_derive.specs.swreq_param.{declared.ids.AssocId.{AssocId}, declared.ids.NameId.{NameId}, declared.ids.ParamId.{ParamId}, declared.ids.ProtoId.{ProtoId}, Order.{TermBefore}, declared.ids.Step.TheVariants.{Bound, Name}, Terms.{Term}, Terms.Term.{Member}};
ghost use Rattle.swreq_word.specs.{Least.{IsLeast}, Order.{WordLess}};
ghost use Rattle.swreq_derive.specs.{Derivation.{TermFacts, TermRequirement, TermStatement, Source, Declares, Derivable}, Derivation.Source.{Written}, Reduced.{IsReducedTypeOf}, Derivation.TermRequirement.{Conforms, IsAnyObject, Equals}, Derivation.TermStatement.{IsValid, Requires}};
ghost use Rattle.swreq_correspondence.specs.{Symbols.{Word, Symbols, AreSymbolsOf, AreOfText, IsInText, word_of, left_side, right_side}, Equations.{AreCongruent, Link, UsableEquation}, Readings.{HasName, HasReading, reading}, Shown.{Shows}, Types.{AreRanked, HasFirsts, IsTypeOf}};

/// Congruence of words shows what is derivable.
pub fn derived_is_shown()
    ensures { (m : Symbols) (f : TermFacts) (s : Source) (st : TermStatement)
        → AreSymbolsOf m f → AreOfText m f → IsInText m s → Derivable f s st
        → Shows m f s (AreCongruent m f s) st }
{}

/// The word of a valid type parameter reads as a type that is derivably equal to it. Where a word has
/// a reading and one link leads to another word, that word has a reading too, and the two types are
/// derivably equal.
pub fn words_are_read()
    ensures of_valid { (m : Symbols) (f : TermFacts) (s : Source) (t : Term)
        → AreSymbolsOf m f → Derivable f s (IsValid t)
        → HasReading m f s (word_of m s t)
        × Derivable f s (Requires (Equals t (reading m (word_of m s t)))) }
    ensures along { (m : Symbols) (f : TermFacts) (s : Source) (u v : Word)
        → AreSymbolsOf m f → Link (UsableEquation m f s) u v → HasReading m f s u
        → HasReading m f s v × Derivable f s (Requires (Equals (reading m u) (reading m v))) }
{}

/// What is derivable of valid type parameters is what is congruent of their words.
pub fn derivations_are_congruences()
    ensures equal { (m : Symbols) (f : TermFacts) (s : Source) (t u : Term)
        → AreSymbolsOf m f → AreOfText m f → IsInText m s → Derivable f s (IsValid t)
        → Derivable f s (IsValid u)
        → Derivable f s (Requires (Equals t u))
        ↔ AreCongruent m f s (word_of m s t) (word_of m s u) }
    ensures conforms { (m : Symbols) (f : TermFacts) (s : Source) (t : Term) (p : ProtoId)
        → AreSymbolsOf m f → AreOfText m f → IsInText m s → Derivable f s (IsValid t)
        → Derivable f s (Requires (Conforms t p))
        ↔ AreCongruent m f s (left_side m s (Conforms t p)) (right_side m s (Conforms t p)) }
    ensures layout { (m : Symbols) (f : TermFacts) (s : Source) (t : Term)
        → AreSymbolsOf m f → AreOfText m f → IsInText m s → Derivable f s (IsValid t)
        → Derivable f s (Requires (IsAnyObject t))
        ↔ AreCongruent m f s (left_side m s (IsAnyObject t)) (right_side m s (IsAnyObject t)) }
    ensures name { (f : TermFacts) (s : Source) (t : Term) (a : NameId)
        → Derivable f s (IsValid (Member t (Name a))) ↔ HasName f s t a }
    ensures bound { (f : TermFacts) (s : Source) (t : Term) (d : AssocId)
        → Derivable f s (IsValid (Member t (Bound d)))
        ↔ ((p : ProtoId) × (a : NameId)
        × Derivable f s (Requires (Conforms t p)) × Declares f p a d) }
{}

/// Of two least words that have types, the one is less if and only if its type comes first. A word has one type.
pub fn types_go_by_words()
    ensures order { (m : Symbols) (f : TermFacts) (gs : List ParamId) (rs : List TermRequirement)
        → AreSymbolsOf m f → AreOfText m f → IsInText m (Written gs rs) → AreRanked m f
        → (t w : Term) (u v : Word)
        → IsTypeOf m f (Written gs rs) u t → IsTypeOf m f (Written gs rs) v w
        → IsLeast (AreCongruent m f (Written gs rs)) u
        → IsLeast (AreCongruent m f (Written gs rs)) v
        → WordLess u v ↔ TermBefore t w }
    ensures one { (m : Symbols) (f : TermFacts) (s : Source) (t w : Term) (u : Word)
        → IsTypeOf m f s u t → IsTypeOf m f s u w → t ≡ w }
{}

/// The least word of the class of a valid type parameter's word has a type, which is the reduced type.
pub fn types_are_reduced()
    ensures some { (m : Symbols) (f : TermFacts) (gs : List ParamId) (rs : List TermRequirement)
        → AreSymbolsOf m f → AreOfText m f → IsInText m (Written gs rs) → AreRanked m f
        → HasFirsts f (Written gs rs)
        → (t : Term) (u : Word) → Derivable f (Written gs rs) (IsValid t)
        → AreCongruent m f (Written gs rs) (word_of m (Written gs rs) t) u
        → IsLeast (AreCongruent m f (Written gs rs)) u
        → (r : Term) × IsTypeOf m f (Written gs rs) u r }
    ensures reduced { (m : Symbols) (f : TermFacts) (gs : List ParamId) (rs : List TermRequirement)
        → AreSymbolsOf m f → AreOfText m f → IsInText m (Written gs rs) → AreRanked m f
        → (t r : Term) (u : Word) → Derivable f (Written gs rs) (IsValid t)
        → AreCongruent m f (Written gs rs) (word_of m (Written gs rs) t) u
        → IsLeast (AreCongruent m f (Written gs rs)) u
        → IsTypeOf m f (Written gs rs) u r → IsReducedTypeOf f (Written gs rs) t r }
{}
