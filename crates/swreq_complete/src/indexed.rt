//! Rules with the tries of their left sides. Some rules may be borrowed; they stand below those that came after them.

ghost use Rattle.std.specs.Prelude.{◌≡◌, ◌⊎◌, ◌+◌, ◌-◌, ◌<◌, ◌≤◌, ◌^◌, List, [], ◌∷◌, ◌++◌, length, drop, slice_get, Some, MatchResult, IfOk, OnOk, OnErr};
ghost use Rattle.swreq_rule.specs.swreq_word.declared.symbols.Symbol.{Symbol};
ghost use Rattle.swreq_rule.specs.{declared.rules.Rule.{Rule}, Reduction.{Chosen}, Search.{NoneLonger}, Steps.{RuleAt}};
ghost use Rattle.swreq_pair.specs.Pairs.{IsNumberOf};
ghost use Rattle.swreq_trie.specs.{declared.trie.Entry.{Entry}, Places.{ArePlaces}};
ghost use Rattle.swreq_complete.specs.{Index.{IsIndexOf}, Reading.{TellNone}};

use crate::part::Part;
use std::alloc::{AllocError, Global};
use std::marker::Model;
use swreq_rule::Rule;
use swreq_rule::word::Symbol;
use swreq_trie::{Found, Trie};

/// Rules that came one after the other: those of a part that is borrowed, if one is, and then one's own.
#[derive(Drop)]
pub(crate) struct Indexed<'b> {
    below: Option<&'b Part>,
    own: Part,
}

impl<'b> Model for Indexed<'b> {
    ghost use Rattle.std.specs.Prelude.{List, ◌++◌};
    ghost use Rattle.swreq_rule.specs.declared.rules.Rule.{Rule};
    ghost use Rattle.swreq_complete.specs.Index.{StandsAfter, rules_below};

    ghost Value = { List Rule };

    ghost view = { λ x. rules_below x.below ++ x.own.rules };

    ghost invariant = { λ x. StandsAfter x.below x.own };
}

// The number of that of two rules, given by their numbers, whose left side is shorter, or of the first where both are as long.
fn shorter(rules: &Indexed<'_>, first: u32, second: u32) -> u32
    requires first { IsNumberOf rules.now first }
    requires second { IsNumberOf rules.now second }
    ensures { (a b : Rule) → RuleAt rules.now first a → RuleAt rules.now second b
        → ((length b.left < length a.left) × (result ≡ second))
        ⊎ ((length a.left ≤ length b.left) × (result ≡ first)) }
{
    let a = rules.rule(first as usize - 1);
    let b = rules.rule(second as usize - 1);
    if b.left.symbols().len() < a.left.symbols().len() {
        second
    } else {
        first
    }
}

// The number of the rule that is chosen at the place, or how many symbols of the word tell that none is, where these two tries together
// have the left sides.
fn find_in_both(
    rules: &Indexed<'_>,
    below: &Trie,
    own: &Trie,
    word: &[Symbol],
    at: usize,
) -> Result<u32, usize>
    requires within { at ≤ length word.now }
    requires index { IsIndexOf (below.now ++ own.now) rules.now }
    ensures { MatchResult result (Chosen rules.now (drop at word.now))
        (TellNone rules.now word.now at) }
{
    match below.find_at(word, at) {
        Err(first) => match own.find_at(word, at) {
            Err(second) => Err(first.max(second)),
            Ok(second) => Ok(second),
        },
        Ok(first) => match own.find_at(word, at) {
            Err(_) => Ok(first),
            Ok(second) => Ok(shorter(rules, first, second)),
        },
    }
}

impl<'b> Indexed<'b> {
    /// No rules, which takes no memory.
    pub fn new(alloc: Global) -> Indexed<'b>
        ensures { result ≡ [] }
    {
        Indexed {
            below: None,
            own: Part::new(alloc, 0),
        }
    }

    /// These rules as borrowed ones. Where some of them are borrowed already, the own ones are copied.
    pub fn over<'a>(&'a self, alloc: Global) -> Result<Indexed<'a>, AllocError>
        ensures { IfOk result (λ same. same ≡ self.now) }
    {
        match self.below {
            None => {
                let own = Part::new(alloc, self.own.rules().len());
                Ok(Indexed {
                    below: Some(&self.own),
                    own,
                })
            }
            Some(below) => {
                let own = self.own.copy(alloc)?;
                Ok(Indexed {
                    below: Some(below),
                    own,
                })
            }
        }
    }

    /// How many rules there are.
    pub fn count(&self) -> usize
        ensures { result ≡ length self.now }
    {
        let own = self.own.rules().len();
        match self.below {
            None => own,
            Some(below) => below.rules().len() + own,
        }
    }

    /// The rule at this place, counted from 0.
    pub fn rule(&self, place: usize) -> &Rule
        requires { place < length self.now }
        ensures { slice_get self.now place ≡ Some result.now }
    {
        match self.below {
            None => &self.own.rules()[place],
            Some(below) => {
                let rules = below.rules();
                if place < rules.len() {
                    &rules[place]
                } else {
                    &self.own.rules()[place - rules.len()]
                }
            }
        }
    }

    /// Copies of the rules, in order.
    pub fn written_out(&self, alloc: Global) -> Result<Vec<Rule>, AllocError>
        ensures { IfOk result (λ copies. copies.items ≡ self.now) }
    {
        let count = self.count();
        let mut copies: Vec<Rule> = Vec::with_capacity(alloc, count)?;
        for k in 0..count {
            copies.push(self.rule(k).clone()?)?;
        }
        Ok(copies)
    }

    /// Puts the rule last. If memory runs out, all is as before.
    pub fn push(&mut self, rule: Rule) -> Result<(), AllocError>
        requires { length self.old < 2 ^ 32 - 1 }
        ensures ok { OnOk result (self.new ≡ self.old ++ rule ∷ []) }
        ensures err { OnErr result (self.new ≡ self.old) }
    {
        self.own.push(rule)
    }

    /// A length that no left side passes.
    pub fn longest(&self) -> usize
        ensures { NoneLonger self.now result }
    {
        let own = self.own.index().longest();
        match self.below {
            None => own,
            Some(below) => own.max(below.index().longest()),
        }
    }

    /// The number of the rule that is chosen at the place. Where no left side begins there, how many symbols of the word tell so.
    pub fn find_at(&self, word: &[Symbol], at: usize) -> Result<u32, usize>
        requires { at ≤ length word.now }
        ensures { MatchResult result (Chosen self.now (drop at word.now))
            (TellNone self.now word.now at) }
    {
        match self.below {
            None => self.own.index().find_at(word, at),
            Some(below) => find_in_both(self, below.index(), self.own.index(), word, at),
        }
    }

    /// Finds the places of all pairs of the rule that has this left side and number with those before it, and with itself.
    pub fn find_overlaps(
        &self,
        left: &[Symbol],
        number: u32,
        found: &mut Found,
    ) -> Result<(), AllocError>
        requires { 0 < length left.now }
        ensures { OnOk result ((stored : List Entry) × IsIndexOf stored self.now
            × ArePlaces stored left.now number found.new) }
    {
        match self.below {
            None => self.own.index().find_overlaps(left, number, found),
            Some(below) => {
                let own = self.own.index();
                own.find_overlaps_over(below.index(), left, number, found)
            }
        }
    }
}
