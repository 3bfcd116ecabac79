//! The run of rounds.
#![tactic(auto, using(swreq_symbols::proofs::OfTexts::text_over))]

ghost use Rattle.std.specs.Prelude.{List, IfOk};
ghost use Rattle.swreq_complete.specs.swreq_watch.declared.events.Event.{Event};
ghost use Rattle.swreq_valid.specs.{Answers.{Answers, IsOnlyOutcome}, Plans.{AreWanted, plan_of}, Rounds.{AreRounds, first_rules, rules_of}, Underway.{IsDueNow, IsTaken, IsUnderway}};

use crate::completing::complete;
use crate::flags::none_used;
use crate::joining::joined;
use crate::round::Rounds;
use crate::turns::{after_end, after_limit, once_more};
use crate::underway::{Passed, Turn, Underway};
use crate::wanted::RoundStart;
use std::alloc::Global;
use swreq_complete::watch::Watch;
use swreq_complete::{CompleteRules, Failed};
use swreq_symbols::Text;

/// Completes the round, and takes it from there.
fn completed<'b, W: Watch>(
    alloc: Global,
    text: &Text<'_>,
    below: Option<&'b CompleteRules<'b>>,
    start: &RoundStart,
    state: Underway<'b>,
    watch: &mut W,
) -> Result<Turn<'b>, Failed>
    requires wanted { AreWanted text.now.table.now text.now.world.now.lexicon start.now.all.items }
    requires underway { (told : List Event)
        × IsUnderway start.now.limits
        (plan_of text.now.world.now text.now.table.now (first_rules below) start.now) state told }
    requires due { IsDueNow start.now.limits
        (plan_of text.now.world.now text.now.table.now (first_rules below) start.now) state }
    ensures { IsTaken start.now.limits (plan_of text.now.world.now text.now.table.now
        (first_rules below.entry) start.now) state.entry
        (W.told watch.old) (W.told watch.new) result }
{
    match complete(alloc, text, below, start, &state.used, watch) {
        Ok(rules) => {
            let turn = after_end(alloc, text, start, state, rules)?;
            Ok(turn)
        }
        Err(Failed::Limit { which, trace }) => {
            after_limit(alloc, text, below, start, state, Passed { which, trace })
        }
        Err(Failed::Memory) => Err(Failed::Memory),
    }
}

/// Takes one round: its completion, or where it is begun anew and others join by its short round, that one.
fn turn<'b, W: Watch>(
    alloc: Global,
    text: &Text<'_>,
    below: Option<&'b CompleteRules<'b>>,
    start: &RoundStart,
    state: Underway<'b>,
    watch: &mut W,
) -> Result<Turn<'b>, Failed>
    requires wanted { AreWanted text.now.table.now text.now.world.now.lexicon start.now.all.items }
    requires underway { (told : List Event)
        × IsUnderway start.now.limits
        (plan_of text.now.world.now text.now.table.now (first_rules below) start.now) state told }
    ensures { IsTaken start.now.limits (plan_of text.now.world.now text.now.table.now
        (first_rules below.entry) start.now) state.entry
        (W.told watch.old) (W.told watch.new) result }
{
    if state.first.is_none() {
        return completed(alloc, text, below, start, state, watch);
    }
    match joined(alloc, text, below, start, &state.used)? {
        None => completed(alloc, text, below, start, state, watch),
        Some(found) => {
            let turn = once_more(state, found)?;
            Ok(turn)
        }
    }
}

/// Runs the rounds over the rules that are borrowed, or over none, up to the last one or to the limit at which they stop.
///
/// `Failed::Limit` comes if and only if they stop at a limit, with the limit that was passed first since the last round that ended, and
/// the trace of the round that passed it. The watcher is told the events of the rounds.
pub fn run_rounds<'b, W: Watch>(
    alloc: Global,
    text: &Text<'_>,
    below: Option<&'b CompleteRules<'b>>,
    start: &RoundStart,
    watch: &mut W,
) -> Result<Rounds<'b>, Failed>
    requires { AreWanted text.now.table.now text.now.world.now.lexicon start.now.all.items }
    ensures answer { Answers start.now.limits (plan_of text.now.world.now text.now.table.now
        (first_rules below.entry) start.now) (W.told watch.old) (W.told watch.new)
        (rules_of result) }
    ensures only { IsOnlyOutcome start.now.limits
        (plan_of text.now.world.now text.now.table.now (first_rules below.entry) start.now)
        (rules_of result) }
    ensures rounds { IfOk result (AreRounds start.now.limits
        (plan_of text.now.world.now text.now.table.now (first_rules below.entry) start.now)) }
{
    let used = none_used(alloc, start.all.len())?;
    let mut state = Underway {
        used,
        first: None,
        before: Vec::new(alloc),
    };
    'each: loop {
        match turn(alloc, text, below, start, state, watch)? {
            Turn::Goes(next) => state = next,
            Turn::Lasts(rounds) => return Ok(rounds),
        }
    }
}
