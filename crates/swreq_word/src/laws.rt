//! The laws of the orders of symbols and words, over the definitions alone.

ghost use Rattle.std.specs.{Prelude.{◌≡◌, ℕ, ◌+◌, ◌++◌, List}, Cmp.{IsTotalOrder}};
ghost use Rattle.std.proofs.lemmas.Map.Lookups.{CmpEqualImpliesEq};
ghost use Rattle.swreq_word.specs.{declared.symbols.Symbol.{Symbol}, Order.{WordLess, symbol_cmp, word_cmp}};
ghost use Rattle.swreq_lemmas.specs.WellFounded.{IsWellFounded};

use crate::Symbol;

/// Symbols compare by kind and within a kind by number. Their order is total, and symbols that compare alike are equal.
pub fn symbols_are_ordered()
    ensures compared { (a b : Symbol) → ⟦<Symbol as Ord>⟧.cmp a b ≡ symbol_cmp a b }
    ensures total { IsTotalOrder symbol_cmp }
    ensures exact { CmpEqualImpliesEq symbol_cmp }
{}

/// The order of words is total, and words that compare alike are equal.
pub fn words_are_ordered()
    ensures total { IsTotalOrder word_cmp }
    ensures exact { CmpEqualImpliesEq word_cmp }
{}

/// The order of words is well-founded: no sequence of words goes down for ever.
pub fn words_are_well_founded()
    ensures accessible { IsWellFounded WordLess }
    ensures no_descent { (words : ℕ → List Symbol)
        → ((n : ℕ) → WordLess (words (n + 1)) (words n)) → ⊥ }
{}

/// A word that is less than another stays less where both stand within one longer word.
pub fn order_stays_in_context()
    ensures { (before u v after : List Symbol) → WordLess u v
        → WordLess (before ++ (u ++ after)) (before ++ (v ++ after)) }
{}
