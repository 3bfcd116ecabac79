//! Words, and their order.

ghost use Rattle.std.specs.{Prelude.{◌≡◌}, Bool.{Decides}};
ghost use Rattle.std.specs.Cmp as cmps;
ghost use Rattle.std.specs.Hash as fed;
ghost use Rattle.std.specs.Ordering.{as_partial_cmp, eq_by_cmp};
ghost use Rattle.std.proofs.Common.{refl, ap};
ghost use Rattle.swreq_word.specs.{Order.{word_cmp}, OrderLaws.{word_equal, word_equivalence, word_partial, word_total}};

use crate::Symbol;
use std::alloc::AllocError;
use std::cmp::Ordering;
use std::hash::{Hash, Hasher};
use std::marker::Model;

/// A list of symbols. A shorter word is less, and words of equal length go from the left.
#[derive(Debug, Drop)]
pub struct Word {
    symbols: Vec<Symbol>,
}

impl Model for Word {
    ghost use Rattle.std.specs.Prelude.{List};
    ghost use Rattle.swreq_word.specs.declared.symbols.Symbol.{Symbol};

    ghost Value = { List Symbol };

    ghost view = { λ w. w.symbols.items };
}

impl Word {
    /// The word of these symbols.
    pub fn new(symbols: Vec<Symbol>) -> Word
        ensures { result ≡ symbols.items }
    {
        Word { symbols }
    }

    /// Its symbols, from the left.
    pub fn symbols(&self) -> &[Symbol]
        ensures { result.now ≡ self.now }
    {
        &self.symbols
    }
}

/// Compares two words: a shorter word is less, and words of equal length go from the left.
pub fn compare(a: &[Symbol], b: &[Symbol]) -> Ordering
    ensures { result ≡ word_cmp a.now b.now }
{
    a.len().cmp(&b.len()).then_with(|| a.cmp(&b))
}

/// Whether two words are the same.
pub fn are_same(u: &[Symbol], v: &[Symbol]) -> bool
    ensures { Decides result (u.now ≡ v.now) }
{
    u == v
}

impl Clone for Word {
    ghost is_clone = { λ w copy. copy ≡ w };

    fn clone(&self) -> Result<Word, AllocError> {
        let symbols = self.symbols.clone()?;
        Ok(Word { symbols })
    }
}

impl PartialEq for Word {
    ghost eq = { eq_by_cmp word_cmp };

    ghost laws = { cmps.partial_equiv_from_equiv word_equivalence };

    fn eq(&self, other: &Word) -> bool {
        self.symbols() == other.symbols()
    }
}

impl Eq for Word {
    ghost laws = { word_equivalence };
}

impl PartialOrd for Word {
    ghost partial_cmp = { as_partial_cmp word_cmp };

    ghost laws = { word_partial };

    fn partial_cmp(&self, other: &Word) -> Option<Ordering> {
        Some(self.cmp(other))
    }
}

impl Ord for Word {
    ghost cmp = { word_cmp };

    ghost total = { word_total };

    ghost matches_partial_cmp = { λ a b. refl };

    ghost matches_eq = { λ a b. refl };

    fn cmp(&self, other: &Word) -> Ordering {
        compare(self.symbols(), other.symbols())
    }
}

impl Hash for Word {
    ghost hash_input = { fed.slice ⟦<Symbol as Hash>⟧.hash_input };

    ghost respects_eq = { λ a b e. ap (fed.slice ⟦<Symbol as Hash>⟧.hash_input) (word_equal a b e) };

    fn hash<H: Hasher>(&self, state: &mut H) {
        self.symbols().hash(state);
    }
}
