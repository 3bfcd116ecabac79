//! Where the basic equations alone pass a limit, so that the first of them are enough to tell which.
ghost use Rattle.std.specs.{Prelude.{◌≡◌, ◌+◌, [], Err, IsTrue, MatchOption}, List.{list_all}};
ghost use Rattle.swreq_complete.specs.{declared.limit.Failed.TheVariants.{Limit}, Answers.{IsAnswer}, Events.{TellsEvents}};
ghost use Rattle.swreq_rounds.specs.{Given.{basic_equations}, Plan.{Plan}};
ghost use Rattle.swreq_symbols.specs.Meaning.{symbols_of};
ghost use Rattle.swreq_world.specs.Closed.{AreIds};
ghost use Rattle.swreq_valid.specs.{Answers.{Answers}, Early.{IsLimitAmong, StopsAmong, is_given}};

use crate::basic::first_basic;
use std::alloc::Global;
use swreq_complete::rule::{Birth, Rule};
use swreq_complete::watch::{Quiet, Watch};
use swreq_complete::word::Word;
use swreq_complete::{CompleteRules, Failed, Limits, extend};
use swreq_world::World;

/// Whether the rule is born of an equation, and not of a pair.
fn is_given(rule: &Rule) -> bool
    ensures { result ≡ is_given rule.now }
{
    match rule.birth {
        Birth::Given(_) => true,
        Birth::Pair(..) => false,
    }
}

/// Whether all rules are born of equations.
fn are_given(trace: &[Rule]) -> bool
    ensures { result ≡ list_all is_given trace.now }
{
    trace.iter().all(|rule| is_given(rule))
}

/// Whether it is a limit that a rule born of an equation passes.
fn is_limit_among(failed: &Failed) -> bool
    ensures { IsTrue result → IsLimitAmong failed.now }
{
    match failed {
        Failed::Limit { trace, .. } => are_given(trace.items()),
        Failed::Memory => false,
    }
}

/// Whether completing these equations passes a limit before it comes to a pair. It may be false if memory runs out.
fn stops_among(alloc: Global, equations: &[(Word, Word)], limits: Limits) -> bool
    ensures { IsTrue result → StopsAmong limits equations.now }
{
    match extend(
        alloc,
        CompleteRules::empty(alloc),
        equations,
        limits,
        &mut Quiet,
    ) {
        Ok(_) => false,
        Err(failed) => is_limit_among(&failed),
    }
}

/// How completing equations fails that pass a limit before a pair.
fn stop<W: Watch>(
    alloc: Global,
    equations: &[(Word, Word)],
    limits: Limits,
    watch: &mut W,
) -> Failed
    requires stops { StopsAmong limits equations.now }
    ensures answer { IsAnswer limits [] equations.now (Err result) }
    ensures told { TellsEvents limits [] equations.now (W.told watch.old)
        (W.told watch.new) (Err result) }
{
    match extend(alloc, CompleteRules::empty(alloc), equations, limits, watch) {
        Ok(_) => unreachable!(),
        Err(failed) => failed,
    }
}

/// Whether the basic equations are no more than the rules allowed.
fn are_few(world: &World, limits: Limits) -> bool {
    (world.protocols() as u64).saturating_add(world.members()) <= limits.max_rules as u64
}

/// How completing these equations fails if they pass a limit before a pair, or None where they are not seen to.
fn stop_among<W: Watch>(
    alloc: Global,
    equations: &[(Word, Word)],
    limits: Limits,
    watch: &mut W,
) -> Option<Failed>
    ensures { MatchOption result
        (W.told watch.new ≡ W.told watch.old)
        (λ failed. StopsAmong limits equations.now × IsAnswer limits [] equations.now (Err failed)
        × TellsEvents limits [] equations.now (W.told watch.old) (W.told watch.new) (Err failed)) }
{
    if stops_among(alloc, equations, limits) {
        Some(stop(alloc, equations, limits, watch))
    } else {
        None
    }
}

/// How the rounds of the protocols fail in the first round, where their many basic equations pass a limit before any pair is settled. It is
/// None where there are few of them, or where they are not seen to pass one; then the watcher was told nothing. Not all of the equations
/// are written out.
pub(crate) fn limit_of_basic<W: Watch>(
    alloc: Global,
    world: &World,
    limits: Limits,
    watch: &mut W,
) -> Option<Failed>
    requires ids { AreIds world.now.lexicon }
    ensures { MatchOption result
        (W.told watch.new ≡ W.told watch.old)
        (λ failed.
        (plan : Plan) → plan.base ≡ [] → plan.basic ≡ basic_equations (symbols_of world.now.lexicon)
        → Answers limits plan (W.told watch.old) (W.told watch.new) (Err failed)) }
{
    if are_few(world, limits) {
        return None;
    }
    match first_basic(alloc, world, limits.max_rules) {
        Err(_) => None,
        Ok(equations) => stop_among(alloc, &equations, limits, watch),
    }
}
