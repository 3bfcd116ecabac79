//! Complete lists of rules, the completion that makes them, and what equations bear by themselves.

ghost use Rattle.std.specs.Prelude.{◌≡◌, ◌⊎◌, ◌<◌, ◌≤◌, [], length, slice_get, Some, IfOk, vec_len, vec_capacity};
ghost use Rattle.swreq_rule.specs.swreq_word.{Relations.{Linked}, Least.{IsLeast}};
ghost use Rattle.swreq_rule.specs.{Reduction.{NoneEarlier}, Search.{NoneLonger}, Steps.{Step}};
ghost use Rattle.swreq_complete.specs.{declared.limit.Failed.TheVariants.{Limit, Memory}, Answers.{IsAnswer, IsOnlyAnswer}, Complete.{IsComplete}, Events.{TellsEvents}, Reduced.{HasBirths, IsReducedOf, IsReducedSystem}, Short.{IsBorneBy, IsOnlyBorne}};

use crate::completion::complete;
use crate::indexed::Indexed;
use crate::limit::{Failed, Limits, Stop, Which};
use crate::reduced::{find, reduced_at};
use crate::rewriting_system::RewritingSystem;
use crate::settling::settle_given;
use crate::task::{Sides, Task};
use std::alloc::{AllocError, Global};
use std::marker::Model;
use swreq_rule::Rule;
use swreq_rule::word::{Symbol, Word};
use swreq_text::Seq;
use swreq_watch::{Event, Quiet, Watch};

/// A list of rules that is complete: reduction leads congruent words to one word. It is empty, or what a completion ended with. Its first
/// rules may be borrowed from another such list.
#[derive(Drop)]
pub struct CompleteRules<'b> {
    list: Indexed<'b>,
}

impl<'b> Model for CompleteRules<'b> {
    ghost use Rattle.std.specs.Prelude.{List};
    ghost use Rattle.swreq_rule.specs.declared.rules.Rule.{Rule};
    ghost use Rattle.swreq_complete.specs.Complete.{IsComplete};

    ghost Value = { List Rule };

    ghost view = { λ c. c.list };

    ghost invariant = { λ c. IsComplete c.list };
}

impl<'b> CompleteRules<'b> {
    /// No rules, which takes no memory.
    pub fn empty(alloc: Global) -> CompleteRules<'b>
        ensures { result ≡ [] }
    {
        CompleteRules {
            list: Indexed::new(alloc),
        }
    }

    /// How many rules there are. They are complete.
    pub fn count(&self) -> usize
        ensures count { result ≡ length self.now }
        ensures complete { IsComplete self.now }
    {
        self.list.count()
    }

    /// The rule at this place in the order of their births, counted from 0.
    pub fn rule(&self, place: usize) -> &Rule
        requires { place < length self.now }
        ensures { slice_get self.now place ≡ Some result.now }
    {
        self.list.rule(place)
    }

    /// A length that no left side passes.
    pub fn longest(&self) -> usize
        ensures { NoneLonger self.now result }
    {
        self.list.longest()
    }

    pub(crate) fn indexed(&self) -> &Indexed<'b>
        ensures { result.now ≡ self.now }
    {
        &self.list
    }

    /// Reduces the word, which leaves the least of all words congruent to it. The word never grows, and keeps its capacity.
    pub fn reduce(&self, word: &mut Vec<Symbol>)
        ensures congruent { Linked (Step self.now) word.old.items word.new.items }
        ensures least { IsLeast (Linked (Step self.now)) word.new.items }
        ensures no_longer { vec_len word.new ≤ vec_len word.old }
        ensures room { vec_capacity word.new ≡ vec_capacity word.old }
    {
        self.reduce_from(word, 0);
    }

    /// Reduces the word, where no left side of a rule begins before `from`, to the least of all words congruent to it. The word never
    /// grows, and keeps its capacity.
    pub fn reduce_from(&self, word: &mut Vec<Symbol>, from: usize)
        requires { NoneEarlier self.now word.old.items from }
        ensures congruent { Linked (Step self.now) word.old.items word.new.items }
        ensures least { IsLeast (Linked (Step self.now)) word.new.items }
        ensures no_longer { vec_len word.new ≤ vec_len word.old }
        ensures room { vec_capacity word.new ≡ vec_capacity word.old }
    {
        self.list.reduce_from(word, from);
    }

    /// Copies of the rules, in order.
    pub fn written_out(&self, alloc: Global) -> Result<Vec<Rule>, AllocError>
        ensures { IfOk result (λ copies. copies.items ≡ self.now) }
    {
        self.list.written_out(alloc)
    }

    /// These rules as borrowed ones. Where some of them are borrowed already, the others are copied.
    pub fn over<'a>(&'a self, alloc: Global) -> Result<CompleteRules<'a>, AllocError>
        ensures { IfOk result (λ c. c ≡ self.now) }
    {
        let list = self.list.over(alloc)?;
        Ok(CompleteRules { list })
    }

    /// The reduced system of the congruence: as left sides all words that are reducible while none of their proper factors is, each
    /// once and in order, as right sides the words to which they reduce. A rule has the birth of the rule here with its left side.
    pub fn canonical(&self, alloc: Global) -> Result<Vec<Rule>, AllocError>
        ensures reduced { IfOk result (λ v. IsReducedSystem (Linked (Step self.now)) v.items) }
        ensures births { IfOk result (λ v. HasBirths self.now v.items) }
    {
        find(alloc, &self.list)
    }

    /// The rule of the reduced system with the left side and the birth of the rule at this place, or None where the left side of that rule
    /// is not minimal.
    pub fn canonical_at(&self, alloc: Global, place: usize) -> Result<Option<Rule>, AllocError>
        requires { place < length self.now }
        ensures { IfOk result (IsReducedOf (Linked (Step self.now)) self.now place) }
    {
        reduced_at(alloc, &self.list, place)
    }
}

// The answer that the completion passed the limit with these rules.
fn passed_limit(alloc: Global, which: Which, list: Indexed<'_>) -> Failed
    ensures { (result ≡ Limit which list.entry) ⊎ (result ≡ Memory) }
{
    match list.written_out(alloc) {
        Ok(rules) => Failed::Limit {
            which,
            trace: Seq::new(rules),
        },
        Err(_) => Failed::Memory,
    }
}

/// Completes the base by the equations, within the limits.
///
/// The equations are settled in order, and then the pairs whose greater number is above the count of the base, in the order of their
/// places, also those of rules that are born on the way. To settle one, both sides are reduced by all rules so far, and where they
/// differ a rule is born, with the greater side on its left.
///
/// The answer is the ended trace. It is `Failed::Limit` if and only if a rule born passes a limit, with that rule as the last of the
/// trace, and `Failed::Memory` if memory runs out. The watcher is told the start and each rule born, the last one of a limit too.
pub fn extend<'b, W: Watch>(
    alloc: Global,
    base: CompleteRules<'b>,
    given: &[(Word, Word)],
    limits: Limits,
    watch: &mut W,
) -> Result<CompleteRules<'b>, Failed>
    ensures answer { IsAnswer limits base.entry given.now result }
    ensures only { IsOnlyAnswer limits base.entry given.now result }
    ensures told { TellsEvents limits base.entry given.now (W.told watch.old)
        (W.told watch.new) result }
{
    let mut list = base.list;
    let count = list.count();
    let start = Event::Start { base: count as u32 };
    watch.tell(&start)?;
    let task = Task {
        base: count,
        given,
        limits,
    };
    match complete(alloc, &task, &mut list, watch) {
        Ok(()) => Ok(CompleteRules { list }),
        Err(Stop::Limit(which)) => Err(passed_limit(alloc, which, list)),
        Err(Stop::Memory) => Err(Failed::Memory),
    }
}

/// The rules that the equations bear by themselves over the base, within the limits.
///
/// The equations are settled in order, as a completion does, and no pair is. So the rules are sound, but words that they link may reduce
/// to two. A completion that passes a limit only by its pairs has these rules first.
///
/// It is `Failed::Limit` if and only if a rule of an equation passes a limit, with that rule as the last of the trace, and
/// `Failed::Memory` if memory runs out.
pub fn bear<'b>(
    alloc: Global,
    base: CompleteRules<'b>,
    given: &[(Word, Word)],
    limits: Limits,
) -> Result<RewritingSystem<'b>, Failed>
    ensures answer { IsBorneBy limits base.entry given.now result }
    ensures only { IsOnlyBorne limits base.entry given.now result }
{
    let mut list = base.list;
    let task = Task {
        base: list.count(),
        given,
        limits,
    };
    let mut sides = Sides::new(alloc);
    match settle_given(&task, &mut list, &mut Quiet, &mut sides) {
        Ok(()) => Ok(RewritingSystem::new(list)),
        Err(Stop::Limit(which)) => Err(passed_limit(alloc, which, list)),
        Err(Stop::Memory) => Err(Failed::Memory),
    }
}
