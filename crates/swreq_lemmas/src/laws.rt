//! Orders in which nothing goes down for ever.
ghost use Rattle.std.specs.Prelude.{ℕ, ◌+◌, ◌<◌};
ghost use Rattle.swreq_lemmas.specs.WellFounded.{IsWellFounded};

/// The order of the natural numbers is well-founded: each number is accessible, and no sequence of
/// numbers goes down for ever.
pub fn numbers_are_well_founded()
    ensures accessible { IsWellFounded ◌<◌ }
    ensures no_descent { (numbers : ℕ → ℕ) → ((n : ℕ) → numbers (n + 1) < numbers n) → ⊥ }
{}
