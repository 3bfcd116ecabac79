//! Rounds, as they are kept.
ghost use Rattle.std.specs.Prelude.{◌≡◌, ◌∷◌, ◌++◌, [], ◌<◌, ◌-◌, ◌^◌, Bool, List, length, Some, slice_get, IfOk};
ghost use Rattle.swreq_valid.specs.{Courses.{rules_by, told_by}, Rounds.{RoundView, ended_round, last_rules, short_round, stopped_round}};

use crate::course::Course;
use std::alloc::{AllocError, Global};
use std::marker::Model;
use swreq_complete::rule::Rule;
use swreq_complete::{CompleteRules, RewritingSystem};
use swreq_text::Seq;

/// A round that another one came after: which requirements its equations are of, by a flag for each, and what became of it.
#[derive(Drop)]
pub(crate) struct Round<'b> {
    used: Seq<bool>,
    course: Course<'b>,
}

impl<'b> Model for Round<'b> {
    ghost use Rattle.swreq_valid.specs.{Courses.{rules_by, told_by}, Rounds.{RoundView}};

    ghost Value = { RoundView };

    ghost view = { λ r. record {
      used = r.used;
      told = told_by r.course;
      rules = rules_by r.course;
    } };
}

impl<'b> Round<'b> {
    /// The round that used these requirements and ended with these rules.
    pub fn ended(used: Vec<bool>, rules: CompleteRules<'b>) -> Round<'b>
        ensures { result ≡ ended_round used.items rules.entry }
    {
        Round {
            used: Seq::new(used),
            course: Course::Ended(rules),
        }
    }

    /// The round that used these requirements and passed a limit with this trace, and the rules of its short round.
    pub fn stopped(used: Vec<bool>, trace: Seq<Rule>, rules: RewritingSystem<'b>) -> Round<'b>
        ensures { result ≡ stopped_round used.items trace rules.entry }
    {
        Round {
            used: Seq::new(used),
            course: Course::Stopped(trace, rules),
        }
    }

    /// The short round that used these requirements, with its rules.
    pub fn short(used: Vec<bool>, rules: RewritingSystem<'b>) -> Round<'b>
        ensures { result ≡ short_round used.items rules.entry }
    {
        Round {
            used: Seq::new(used),
            course: Course::Short(rules),
        }
    }

    /// A flag for each requirement, in order: whether the round used it.
    pub fn used(&self) -> &[bool]
        ensures { result.now ≡ self.now.used }
    {
        self.used.items()
    }

    /// What became of the round.
    pub fn course(&self) -> &Course<'b>
        ensures told { told_by result.now ≡ self.now.told }
        ensures rules { rules_by result.now ≡ self.now.rules }
    {
        &self.course
    }

    /// Copies of its rules, in order.
    pub fn written_out(&self, alloc: Global) -> Result<Vec<Rule>, AllocError>
        ensures items { IfOk result (λ v. v.items ≡ self.now.rules) }
        ensures few { IfOk result (λ v. length v.items < 2 ^ 32 - 1) }
    {
        match &self.course {
            Course::Ended(rules) => complete_out(alloc, rules),
            Course::Stopped(_, rules) => system_out(alloc, rules),
            Course::Short(rules) => system_out(alloc, rules),
        }
    }
}

/// Copies of complete rules, in order.
fn complete_out(alloc: Global, rules: &CompleteRules<'_>) -> Result<Vec<Rule>, AllocError>
    ensures items { IfOk result (λ v. v.items ≡ rules.now) }
    ensures few { IfOk result (λ v. length v.items < 2 ^ 32 - 1) }
{
    let _complete = rules.count();
    rules.written_out(alloc)
}

/// Copies of rules, in order.
fn system_out(alloc: Global, rules: &RewritingSystem<'_>) -> Result<Vec<Rule>, AllocError>
    ensures items { IfOk result (λ v. v.items ≡ rules.now) }
    ensures few { IfOk result (λ v. length v.items < 2 ^ 32 - 1) }
{
    let _few = rules.count();
    rules.written_out(alloc)
}

/// Rounds in order, of which the last ended.
#[derive(Drop)]
pub struct Rounds<'b> {
    before: Seq<Round<'b>>,
    used: Seq<bool>,
    last: CompleteRules<'b>,
}

impl<'b> Model for Rounds<'b> {
    ghost use Rattle.std.specs.Prelude.{List, [], ◌∷◌, ◌++◌};
    ghost use Rattle.swreq_valid.specs.Rounds.{RoundView, ended_round};

    ghost Value = { List RoundView };

    ghost view = { λ r. r.before ++ ended_round r.used r.last ∷ [] };
}

impl<'b> Rounds<'b> {
    /// Those before the last, and the last, which used these requirements and ended with these rules.
    pub(crate) fn new(
        before: Vec<Round<'b>>,
        used: Vec<bool>,
        last: CompleteRules<'b>,
    ) -> Rounds<'b>
        ensures { result ≡ before.entry.items ++ ended_round used.items last.entry ∷ [] }
    {
        Rounds {
            before: Seq::new(before),
            used: Seq::new(used),
            last,
        }
    }

    /// The rounds before the last.
    pub(crate) fn before(&self) -> &[Round<'b>]
        ensures { (used : List Bool)
            × (self.now ≡ result.now ++ ended_round used (last_rules self.now) ∷ []) }
    {
        self.before.items()
    }

    /// How many rounds there are.
    pub fn count(&self) -> usize
        ensures count { result ≡ length self.now }
        ensures some { 0 < result }
    {
        self.before.items().len() + 1
    }

    /// A flag for each requirement, in order: whether the round with this number, counted from 0, used it.
    pub fn used(&self, number: usize) -> &[bool]
        requires { number < length self.now }
        ensures { (r : RoundView) → slice_get self.now number ≡ Some r → result.now ≡ r.used }
    {
        match self.before.items().get(number) {
            Some(round) => round.used(),
            None => self.used.items(),
        }
    }

    /// Copies of the rules of the round with this number, counted from 0, in order: of those with which it ended, or of those of the short
    /// round.
    pub fn written_out(&self, alloc: Global, number: usize) -> Result<Vec<Rule>, AllocError>
        requires { number < length self.now }
        ensures items { (r : RoundView) → slice_get self.now number ≡ Some r
            → IfOk result (λ v. v.items ≡ r.rules) }
        ensures few { IfOk result (λ v. length v.items < 2 ^ 32 - 1) }
    {
        match self.before.items().get(number) {
            Some(round) => round.written_out(alloc),
            None => complete_out(alloc, &self.last),
        }
    }

    /// The rules of the last round.
    pub fn last(&self) -> &CompleteRules<'b>
        ensures { result.now ≡ last_rules self.now }
    {
        &self.last
    }
}
