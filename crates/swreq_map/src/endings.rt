// What rules keep with the endings of words.
ghost use Rattle.std.specs.Prelude.{◌≡◌, ◌<◌, ◌≤◌, List, ◌∷◌, ◌++◌, [], Contains, drop, IfOk, OnOk, true};
ghost use Rattle.swreq_complete.specs.swreq_word.declared.symbols.Symbol.{Symbol};
ghost use Rattle.swreq_map.specs.{Follows.{AreEndingsOf, Follows}, Properties.{IsProperty}};

use crate::followers::{add_end, followers};
use std::alloc::{AllocError, Global};
use std::marker::Model;
use swreq_complete::CompleteRules;
use swreq_complete::word::{Symbol, WordTable};

/// Words, and with each of them the properties that end a left side after it.
#[derive(Drop)]
pub struct Endings {
    words: WordTable,
    lists: Vec<Vec<Symbol>>,
}

impl Model for Endings {
    ghost use Rattle.swreq_complete.specs.swreq_word.Interned.{AreDistinct};
    ghost use Rattle.swreq_map.specs.Follows.{EndingsView};

    ghost Value = { EndingsView };

    ghost view = { λ e. record { words = e.words; lists = e.lists.items } };

    ghost invariant = { λ e. AreDistinct e.words };
}

impl Endings {
    /// What the rules keep with words, where the protocols are those below a number.
    pub fn of(
        alloc: Global,
        rules: &CompleteRules<'_>,
        protocols: u32,
    ) -> Result<Endings, AllocError>
        ensures { IfOk result (AreEndingsOf protocols rules.now) }
    {
        Endings::after(alloc, rules, 0, protocols)
    }

    /// What the rules from a place on keep with words.
    pub(crate) fn after(
        alloc: Global,
        rules: &CompleteRules<'_>,
        from: usize,
        protocols: u32,
    ) -> Result<Endings, AllocError>
        ensures { IfOk result (AreEndingsOf protocols (drop from rules.now)) }
    {
        let mut words = WordTable::new(alloc);
        let mut lists: Vec<Vec<Symbol>> = Vec::new(alloc);
        for k in from..rules.count() {
            let left = rules.rule(k).left.symbols();
            add_end(alloc, &mut words, &mut lists, protocols, left)?;
        }
        Ok(Endings { words, lists })
    }

    /// The symbols that are kept with a word.
    pub(crate) fn with(&self, word: &[Symbol]) -> &[Symbol]
        ensures { (x : Symbol) → Follows self.now.words self.now.lists word.now x
            → Contains result.now x }
    {
        followers(&self.words, &self.lists, word)
    }
}
