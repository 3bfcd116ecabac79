//! What is said by an output, over the definitions alone.
ghost use Rattle.std.specs.Prelude.{◌≡◌, ℕ, List};
ghost use Rattle.swreq_world.specs.swreq_derive.{Derivation.{BookDerivable, TermRequirement}, Derivation.TermStatement.{Requires}};
ghost use Rattle.swreq_world.specs.swreq_lexicon.Views.{LexiconView};
ghost use Rattle.swreq_world.specs.swreq_lowering.Queries.{TermQuery};
ghost use Rattle.swreq_lines.specs.swreq_print.{Names.{Text}, Reading.{TellsApart}};
ghost use Rattle.swreq_world.specs.{FactsAt.{facts_of, source_of}, Worlds.{TextWorld, signature_at}};
ghost use Rattle.swreq_verify.specs.{declared.judging.Judgement.TheVariants.{Derived}, Judgements.{IsJudged, IsToDerive}, Outputs.{IsOutput}, SecondParts.{AreSections, IsFirstMisfit, TermSection}};

/// `ok` says that the requirement that the query asks is derivable by the book's rules from the written list of its signature: the
/// lines under the query are such a derivation.
pub fn ok_says_derivable()
    ensures { (w : TextWorld) (q : TermQuery) (s : TermSection) → IsJudged w q s Derived
        → (r : TermRequirement) × IsToDerive q s r × BookDerivable (facts_of w)
        (source_of (signature_at w q.f)) (Requires r) }
{}

/// Where a first line does not fit, the lines are no such sections.
pub fn misfits_are_no_sections()
    ensures { (x : LexiconView) (count n : ℕ) (lines : List Text) (ss : List TermSection)
        → IsFirstMisfit x count lines n → AreSections x count lines ss → ⊥ }
{}

/// A second part has at most one output, where names tell ids apart.
pub fn one_output()
    ensures { (w : TextWorld) (second out other : Text) → TellsApart w.lexicon
        → IsOutput w second out → IsOutput w second other
        → out ≡ other }
{}
