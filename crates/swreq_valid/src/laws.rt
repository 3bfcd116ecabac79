//! What the definitions of rounds and of sides tell.
ghost use Rattle.std.specs.Prelude.{◌≡◌, ℕ, List};
ghost use Rattle.swreq_rounds.specs.swreq_param.Terms.{Term};
ghost use Rattle.swreq_rounds.specs.swreq_derive.{Derivation.{Derivable, Source, TermFacts}, Derivation.TermRequirement.{Equals}, Derivation.TermStatement.{IsValid}};
ghost use Rattle.swreq_complete.specs.declared.limit.Limits.{Limits};
ghost use Rattle.swreq_rounds.specs.Plan.{Plan};
ghost use Rattle.swreq_valid.specs.{Rounds.{AreRounds, RoundView}, Sides.{FailsFirst, IsValidSide, sides_at}};

/// The rounds of a plan are one list.
pub fn rounds_are_one()
    ensures { (limits : Limits) (plan : Plan) (rounds others : List RoundView)
        → AreRounds limits plan rounds → AreRounds limits plan others
        → rounds ≡ others }
{}

/// Of an equality whose left side is no type parameter, that side is the first to be refused.
pub fn left_side_is_first()
    ensures { (f : TermFacts) (s : Source) (t u : Term) (left right at : ℕ)
        → (Derivable f s (IsValid t) → ⊥)
        → FailsFirst (IsValidSide f) (sides_at s (Equals t u) left right) at → at ≡ left }
{}
