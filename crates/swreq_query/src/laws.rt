//! Laws on the lines of signatures and of their queries, over the definitions alone.
ghost use Rattle.std.specs.Prelude.{◌≡◌, ◌↔◌, Bool, List, Contains, ℕ};
ghost use Rattle.swreq_print.specs.swreq_param.Terms.{Term};
ghost use Rattle.swreq_print.specs.swreq_derive.{Derivation.{BookDerivable, Derivable, Derives, Source, TermFacts}, Reduced.{IsReducedTypeOf}, WellFormed.{IsWellFormed}, Equivalence.{AreEquivalent}, Facts.{generic_params}};
ghost use Rattle.swreq_print.specs.Names.{Text};
ghost use Rattle.swreq_print.specs.swreq_lexicon.Views.{LexiconView};
ghost use Rattle.swreq_print.specs.swreq_lowering.{Queries.{TermAsks}, Requirements.{PlacedRequirement}};
ghost use Rattle.swreq_query.specs.{Answers.{Answer, IsAnswer, IsAnswerLine, IsLeastEqual}, Ended.{HasEnded, IsWorldOfText}, Signatures.{IsMinimisedLine, IsNamedLine}, Systems.{IsSystemText}};
ghost use Rattle.swreq_machine.specs.swreq_complete.declared.limit.Limits.{Limits};
ghost use Rattle.swreq_machine.specs.swreq_world.{Worlds.{SignatureOver, TextWorld}, FactsAt.{written_list}};
ghost use Rattle.swreq_machine.specs.swreq_symbols.Meaning.{facts_of};

/// A query has at most one answer, and so one line, by the rules with the guard and by those without it.
pub fn answer_is_one()
    ensures answer { (f : TermFacts) (guarded : Bool) (s : Source) (q : TermAsks) (a b : Answer)
        → IsAnswer (Derives f guarded s) q a → IsAnswer (Derives f guarded s) q b → a ≡ b }
    ensures line { (x : LexiconView) (f : TermFacts) (guarded : Bool) (s : Source)
        (q : TermAsks) (l m : Text)
        → IsAnswerLine x (Derives f guarded s) q l
        → IsAnswerLine x (Derives f guarded s) q m → l ≡ m }
{}

/// On a well formed text a query of a list has the same answer by the book's rules and by the rules with the guard.
pub fn guard_changes_no_answer()
    ensures { (f : TermFacts) (lists : List Source) (s : Source) (q : TermAsks) (a : Answer)
        → IsWellFormed f lists → Contains lists s
        → IsAnswer (BookDerivable f s) q a ↔ IsAnswer (Derivable f s) q a }
{}

/// With the guard the type that is answered is the reduced type.
pub fn types_are_reduced()
    ensures { (f : TermFacts) (s : Source) (t r : Term)
        → IsLeastEqual (Derivable f s) t r ↔ IsReducedTypeOf f s t r }
{}

/// A signature has one minimised line, one line with its name, and one printed system. The reduced systems of its congruence are one but
/// for the births of their rules, which are not printed.
pub fn signatures_print_once()
    ensures line { (w : TextWorld) (g : SignatureOver PlacedRequirement) (line other : List ℕ)
        → IsMinimisedLine w g line → IsMinimisedLine w g other → line ≡ other }
    ensures named { (w : TextWorld) (g : SignatureOver PlacedRequirement) (line other : List ℕ)
        → IsNamedLine w g line → IsNamedLine w g other → line ≡ other }
    ensures system { (w : TextWorld) (g : SignatureOver PlacedRequirement) (text other : List ℕ)
        → IsSystemText w g text → IsSystemText w g other → text ≡ other }
{}

/// Equivalent signatures with the same generic parameters have one minimised line.
pub fn equivalent_signatures_print_alike()
    ensures { (w : TextWorld) (g h : SignatureOver PlacedRequirement) (line other : List ℕ)
        → g.params ≡ h.params
        → AreEquivalent (facts_of w) (generic_params g.params) (written_list g) (written_list h)
        → IsMinimisedLine w g line → IsMinimisedLine w h other → line ≡ other }
{}

/// Signatures of a text with one minimised line have the same generic parameters, and where their rounds have ended they are equivalent.
pub fn signatures_that_print_alike_are_equivalent(text: &[u8])
    ensures params { (w : TextWorld) (g h : SignatureOver PlacedRequirement) (line : List ℕ)
        → IsWorldOfText text.now w
        → Contains w.signatures g → Contains w.signatures h → IsMinimisedLine w g line
        → IsMinimisedLine w h line → g.params ≡ h.params }
    ensures equivalent { (limits : Limits) (w : TextWorld) (g h : SignatureOver PlacedRequirement)
        (line : List ℕ) → IsWorldOfText text.now w
        → Contains w.signatures g → Contains w.signatures h
        → HasEnded limits w g → HasEnded limits w h
        → IsMinimisedLine w g line → IsMinimisedLine w h line
        → AreEquivalent (facts_of w) (generic_params g.params) (written_list g) (written_list h) }
{}
