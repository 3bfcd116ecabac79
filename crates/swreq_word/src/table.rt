//! Words by small ids.

ghost use Rattle.std.specs.Prelude.{◌≡◌, List, [], Contains, IfOk, OnErr, MatchOption};
ghost use Rattle.swreq_word.specs.Interned.{AreDistinct, Interned, IsOf, StandsFor};

use crate::{Symbol, Word};
use indexmap::IndexSet;
use std::alloc::{AllocError, Global};
use std::marker::Model;

/// The place of a word in its table.
#[derive(Clone, Copy, Debug, PartialEq, Eq, PartialOrd, Ord, Hash)]
pub struct WordId {
    pub place: usize,
}

/// Words, each once, in the order in which they came.
#[derive(Drop)]
pub struct WordTable {
    words: IndexSet<Vec<Symbol>>,
}

impl Model for WordTable {
    ghost use Rattle.std.specs.Prelude.{List, map};
    ghost use Rattle.swreq_word.specs.declared.symbols.Symbol.{Symbol};

    ghost Value = { List (List Symbol) };

    ghost view = { λ t. map (λ w. w.items) t.words.keys };
}

impl WordTable {
    /// A table without words, which takes no memory.
    pub fn new(alloc: Global) -> WordTable
        ensures { result ≡ [] }
    {
        WordTable {
            words: IndexSet::new(alloc),
        }
    }

    /// The id of the word, which becomes the last of the table where it is new. If memory runs out, the table stays as it was.
    pub fn intern(&mut self, w: &[Symbol]) -> Result<WordId, AllocError>
        ensures ok { IfOk result (Interned self.old self.new w.now) }
        ensures distinct { AreDistinct self.new }
        ensures err { OnErr result (self.new ≡ self.old) }
    {
        let _count = self.words.len();
        match self.words.get_index_of(w) {
            Some(place) => Ok(WordId { place }),
            None => {
                let word = Vec::from_slice(*self.words.allocator(), w)?;
                let (place, _) = self.words.insert_full(word)?;
                Ok(WordId { place })
            }
        }
    }

    /// The word of an id of the table. No other id of the table has it.
    pub fn word(&self, id: WordId) -> &[Symbol]
        requires { IsOf self.now id }
        ensures word { StandsFor self.now id result.now }
        ensures distinct { AreDistinct self.now }
    {
        let _count = self.words.len();
        match self.words.get_index(id.place) {
            Some(word) => word,
            None => unreachable!(),
        }
    }

    /// The id of the word, or None if and only if the table does not have it.
    pub fn find(&self, word: &Word) -> Option<WordId>
        ensures { MatchOption result (Contains self.now word.now → ⊥)
            (λ id. StandsFor self.now id word.now) }
    {
        self.find_symbols(word.symbols())
    }

    /// The id of the word of these symbols, or None if and only if the table does not have it.
    pub fn find_symbols(&self, symbols: &[Symbol]) -> Option<WordId>
        ensures { MatchOption result (Contains self.now symbols.now → ⊥)
            (λ id. StandsFor self.now id symbols.now) }
    {
        let place = self.words.get_index_of(symbols)?;
        Some(WordId { place })
    }
}
