//! Laws on the symbols and facts of the world of a text, over the definitions alone.
ghost use Rattle.std.specs.Prelude.{◌≡◌, ◌<◌, List, All, length};
ghost use Rattle.swreq_correspondence.specs.swreq_param.{declared.ids.ParamId.{ParamId}, Tables.{Extends}, Terms.{Term}};
ghost use Rattle.swreq_correspondence.specs.swreq_derive.{Derivation.{TermRequirement}, Derivation.Source.{Written}, Facts.{AreFactsOf, term_facts, term_source}};
ghost use Rattle.swreq_world.specs.swreq_lexicon.Views.{LexiconView};
ghost use Rattle.swreq_correspondence.specs.{Symbols.{AreOfText, AreSymbolsOf, IsInText}, Types.{AreRanked}};
ghost use Rattle.swreq_world.specs.swreq_lowering.declared.ids.FuncId.{FuncId};
ghost use Rattle.swreq_world.specs.{ByTable.{world_by}, Closed.{AreIds, IsClosed, IsRequirementOf}, FactsAt.{facts_at, source_of}, Worlds.{IdWorld, TextWorld, signature_at}};
ghost use Rattle.swreq_symbols.specs.{Known.{IsTextOver}, Meaning.{facts_of, symbols_of}};

/// Each associated type has the symbol of its protocol and name, requirements and member names are those of protocols of the text and
/// speak of no others, and the ranks of associated types and of member symbols go by name first.
pub fn worlds_have_symbols()
    ensures symbols { (w : TextWorld) → IsClosed w
        → AreSymbolsOf (symbols_of w.lexicon) (facts_of w) }
    ensures of_text { (w : TextWorld) → IsClosed w → AreOfText (symbols_of w.lexicon) (facts_of w) }
    ensures ranked { (w : TextWorld) → IsClosed w → AreRanked (symbols_of w.lexicon) (facts_of w) }
{}

/// A list of requirements of the text speaks of protocols of the text.
pub fn lists_are_in_text()
    ensures { (x : LexiconView) → AreIds x → (gs : List ParamId) (rs : List TermRequirement)
        → All (IsRequirementOf x) rs
        → IsInText (symbols_of x) (Written gs rs) }
{}

/// What one derives from a signature over ids is what one derives from it over the type parameters for which they stand: its ids are of the
/// table, its facts stand for those of the text, and its list for the written one.
pub fn signatures_stand_for_their_lists()
    ensures of_table { (terms : List Term) (w : IdWorld) → IsTextOver terms w → (f : FuncId)
        → f.place < length w.signatures
        → AreFactsOf terms (facts_at w f) }
    ensures facts { (terms : List Term) (w : IdWorld) (f : FuncId)
        → term_facts terms (facts_at w f) ≡ facts_of (world_by terms w) }
    ensures list { (terms : List Term) (w : IdWorld) (f : FuncId)
        → term_source terms (facts_at w f) ≡ source_of (signature_at (world_by terms w) f) }
{}

/// A table that grows keeps the text of a world: the ids of the world stand for the same type parameters.
pub fn texts_stay_as_tables_grow()
    ensures text { (old new : List Term) → Extends old new → (w : IdWorld)
        → IsTextOver old w → IsTextOver new w }
    ensures world { (old new : List Term) → Extends old new → (w : IdWorld) → IsTextOver old w
        → world_by new w ≡ world_by old w }
{}
