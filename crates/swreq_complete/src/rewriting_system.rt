//! Lists of rules by which words are reduced, complete or not.

ghost use Rattle.std.specs.Prelude.{◌≡◌, ◌-◌, ◌<◌, ◌≤◌, ◌^◌, length, IfOk, vec_len, vec_capacity};
ghost use Rattle.swreq_rule.specs.Reduction.{Reduces};

use crate::indexed::Indexed;
use std::alloc::{AllocError, Global};
use std::marker::Model;
use swreq_rule::Rule;
use swreq_rule::word::Symbol;

/// A list of rules by which words are reduced, complete or not. Two words that reduce to one word are linked by it; where it is not
/// complete, linked words may reduce to two. Its first rules may be borrowed from complete ones.
#[derive(Drop)]
pub struct RewritingSystem<'b> {
    list: Indexed<'b>,
}

impl<'b> Model for RewritingSystem<'b> {
    ghost use Rattle.std.specs.Prelude.{◌-◌, ◌<◌, ◌^◌, List, length};
    ghost use Rattle.swreq_rule.specs.declared.rules.Rule.{Rule};

    ghost Value = { List Rule };

    ghost view = { λ s. s.list };

    ghost invariant = { λ s. length s.list < 2 ^ 32 - 1 };
}

impl<'b> RewritingSystem<'b> {
    /// The system of these rules.
    pub(crate) fn new(list: Indexed<'b>) -> RewritingSystem<'b>
        requires { length list < 2 ^ 32 - 1 }
        ensures { result ≡ list.entry }
    {
        RewritingSystem { list }
    }

    /// How many rules there are. They are so few that each has a number of 32 bits.
    pub fn count(&self) -> usize
        ensures count { result ≡ length self.now }
        ensures few { length self.now < 2 ^ 32 - 1 }
    {
        self.list.count()
    }

    /// Reduces the word by the rules. The word never grows, and keeps its capacity.
    pub fn reduce(&self, word: &mut Vec<Symbol>)
        ensures reduced { Reduces self.now word.old.items word.new.items }
        ensures no_longer { vec_len word.new ≤ vec_len word.old }
        ensures room { vec_capacity word.new ≡ vec_capacity word.old }
    {
        self.list.reduce(word);
    }

    /// Copies of the rules, in order.
    pub fn written_out(&self, alloc: Global) -> Result<Vec<Rule>, AllocError>
        ensures { IfOk result (λ copies. copies.items ≡ self.now) }
    {
        self.list.written_out(alloc)
    }
}
