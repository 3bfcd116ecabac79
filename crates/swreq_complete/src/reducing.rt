//! Reduction by rules with tries: the first redex of a word, and its steps one by one.

ghost use Rattle.std.specs.{Prelude.{◌≡◌, ◌-◌, ◌<◌, ◌≤◌, List, MatchOption, vec_len, vec_capacity}, Bool.{OnFalse, OnTrue}};
ghost use Rattle.swreq_rule.specs.swreq_word.{declared.symbols.Symbol.{Symbol}, Relations.{IsIrreducible}};
ghost use Rattle.swreq_rule.specs.{Reduction.{FirstRedex, NoneEarlier, Reduces}, Search.{NoneLonger, StepsPast}, Steps.{Step}};

use crate::indexed::Indexed;
use swreq_rule::word::Symbol;
use swreq_rule::{Redex, take_step_of};

// The first redex, where no left side begins before this place.
pub(crate) fn first_redex(rules: &Indexed<'_>, word: &[Symbol], from: usize) -> Option<Redex>
    requires earlier { NoneEarlier rules.now word.now from }
    ensures { MatchOption result
        (IsIrreducible (Step rules.now) word.now)
        (λ redex. FirstRedex rules.now word.now redex.at redex.number) }
{
    for at in from..word.len() {
        match rules.find_at(word, at) {
            Ok(number) => {
                let number = number as usize;
                return Some(Redex { at, number });
            }
            Err(_) => {}
        }
    }
    None
}

// Takes one step of reduction, where no left side begins before `from` and none is longer than this, and answers a place before
// which none begins then. Answers None where no left side stands in the word.
fn reduce_once(
    rules: &Indexed<'_>,
    word: &mut Vec<Symbol>,
    from: usize,
    longest: usize,
) -> Option<usize>
    requires earlier { NoneEarlier rules.now word.old.items from }
    requires no_left_longer { NoneLonger rules.now longest }
    ensures step { MatchOption result
        ((word.new.items ≡ word.old.items) × IsIrreducible (Step rules.now) word.new.items)
        (λ next. StepsPast rules.now word.old.items word.new.items next) }
    ensures no_longer { vec_len word.new ≤ vec_len word.old }
    ensures room { vec_capacity word.new ≡ vec_capacity word.old }
{
    let redex = first_redex(rules, word, from)?;
    take_step_of(rules.rule(redex.number - 1), word, redex.at);
    Some(redex.at.saturating_sub(longest))
}

impl Indexed<'_> {
    /// Whether the left side of some rule stands in the word.
    pub fn is_reducible(&self, word: &[Symbol]) -> bool
        ensures yes { OnTrue result ((v : List Symbol) × Step self.now word.now v) }
        ensures no { OnFalse result (IsIrreducible (Step self.now) word.now) }
    {
        match first_redex(self, word, 0) {
            Some(_) => true,
            None => false,
        }
    }

    /// Reduces the word by the rules. It never grows, and keeps its capacity.
    pub fn reduce(&self, word: &mut Vec<Symbol>)
        ensures reduced { Reduces self.now word.old.items word.new.items }
        ensures no_longer { vec_len word.new ≤ vec_len word.old }
        ensures room { vec_capacity word.new ≡ vec_capacity word.old }
    {
        self.reduce_from(word, 0);
    }

    /// Reduces the word, where no left side begins before `from`. It never grows, and keeps its capacity.
    pub fn reduce_from(&self, word: &mut Vec<Symbol>, from: usize)
        requires { NoneEarlier self.now word.old.items from }
        ensures reduced { Reduces self.now word.old.items word.new.items }
        ensures no_longer { vec_len word.new ≤ vec_len word.old }
        ensures room { vec_capacity word.new ≡ vec_capacity word.old }
    {
        let longest = self.longest();
        let mut from = from;
        'steps: while let Some(next) = reduce_once(self, word, from, longest) {
            from = next;
        }
    }
}
