//! Worked rows of completion: what is told of it, and how it ends.

use crate::notation::{PROTOCOL, assert_row, equations, put_rule};
use std::alloc::{AllocError, Global};
use std::fmt::Write;
use std::process::Abort;
use swreq_complete::watch::{Counter, Event, Recorder};
use swreq_complete::word::Word;
use swreq_complete::{CompleteRules, Failed, Limits, Which, extend};
use swreq_samples::{Tally, counts, tally_at};

const AMPLE: Limits = Limits {
    max_rules: 4000,
    max_length: 64,
};

/// The completion of the base by the equations. One that does not end is an error too.
pub(crate) fn ended<'b>(
    alloc: Global,
    base: CompleteRules<'b>,
    given: &[(Word, Word)],
    counter: &mut Counter,
) -> Result<CompleteRules<'b>, AllocError> {
    extend(alloc, base, given, AMPLE, counter).map_err(|_| AllocError)
}

/// The rules that complete these equations.
pub(crate) fn completed<'b>(
    alloc: Global,
    text: &str,
    counter: &mut Counter,
) -> Result<CompleteRules<'b>, AllocError> {
    let given = equations(alloc, text)?;
    ended(alloc, CompleteRules::empty(alloc), &given, counter)
}

fn put_event(out: &mut String, event: &Event) -> Result<(), AllocError> {
    match event {
        Event::Start { base } => write!(out, "over {base}"),
        Event::Born { rule } => put_rule(out, rule),
    }
}

fn put_events(out: &mut String, events: &[Event]) -> Result<(), AllocError> {
    for event in events {
        put_event(out, event)?;
    }
    Ok(())
}

/// How many rules the answer has, and the limit that was passed.
fn ending_of(
    answer: &Result<CompleteRules<'_>, Failed>,
) -> Result<(usize, Option<Which>), AllocError> {
    match answer {
        Ok(rules) => Ok((rules.count(), None)),
        Err(Failed::Limit { which, trace }) => Ok((trace.items().len(), Some(*which))),
        Err(Failed::Memory) => Err(AllocError),
    }
}

/// How the completion of the base by the equations ends.
fn ending(
    alloc: Global,
    base: CompleteRules<'_>,
    given: &[(Word, Word)],
    limits: Limits,
    recorder: &mut Recorder,
) -> Result<(usize, Option<Which>), AllocError> {
    let answer = extend(alloc, base, given, limits, recorder);
    ending_of(&answer)
}

fn put_ending(out: &mut String, ending: (usize, Option<Which>)) -> Result<(), AllocError> {
    let (count, passed) = ending;
    let how = match passed {
        None => "rules",
        Some(Which::Rules) => "past the limit of rules",
        Some(Which::Length) => "past the limit of length",
    };
    write!(out, ": {count} {how}")
}

/// By name, rules over a base, the most rules and the greatest length: what is told of their completion, and the answer.
const TOLD: &[(&str, &str, &str, (u32, u32), &str)] = &[
    (
        "a protocol over no rules",
        "",
        PROTOCOL,
        (4000, 64),
        "over 0, NN>N 1, NA>a 2, aN>a 3, Na>a 1.2.1, aA>aa 3.2.1: 5 rules",
    ),
    (
        "a generic parameter that conforms to the protocol",
        PROTOCOL,
        "TN=T",
        (4000, 64),
        "over 5, TN>T 1, TA>Ta 6.2.1: 7 rules",
    ),
    (
        "the last rule has the number of the limit",
        PROTOCOL,
        "TN=T",
        (7, 64),
        "over 5, TN>T 1, TA>Ta 6.2.1: 7 rules",
    ),
    (
        "the last rule passes the limit of rules",
        PROTOCOL,
        "TN=T",
        (6, 64),
        "over 5, TN>T 1, TA>Ta 6.2.1: 7 past the limit of rules",
    ),
    (
        "the longest left side has the length of the limit",
        PROTOCOL,
        "TN=T",
        (4000, 2),
        "over 5, TN>T 1, TA>Ta 6.2.1: 7 rules",
    ),
    (
        "a left side passes the limit of length",
        PROTOCOL,
        "TN=T",
        (4000, 1),
        "over 5, TN>T 1: 6 past the limit of length",
    ),
    (
        "a rule that passes both",
        PROTOCOL,
        "TN=T",
        (5, 1),
        "over 5, TN>T 1: 6 past the limit of rules",
    ),
    (
        "an equation that bears no rule counts",
        PROTOCOL,
        "NN=N TN=T",
        (6, 64),
        "over 5, TN>T 2, TA>Ta 6.2.1: 7 past the limit of rules",
    ),
    (
        "a base of more rules than the limit, and sides that reduce to one word",
        PROTOCOL,
        "NAA=aa",
        (4, 1),
        "over 5: 5 rules",
    ),
];

/// What is told of the completion of the base by the equations, and the answer.
fn put_told(
    alloc: Global,
    base: CompleteRules<'_>,
    given: &[(Word, Word)],
    limits: Limits,
    out: &mut String,
) -> Result<(), AllocError> {
    let mut recorder = Recorder::new(alloc);
    let ending = ending(alloc, base, given, limits, &mut recorder)?;
    put_events(out, recorder.events())?;
    put_ending(out, ending)
}

/// What is told of the completion of a borrowed base by the equations, and the answer.
fn put_told_over(
    alloc: Global,
    base: &CompleteRules<'_>,
    given: &[(Word, Word)],
    limits: Limits,
    out: &mut String,
) -> Result<(), AllocError> {
    let over = base.over(alloc)?;
    put_told(alloc, over, given, limits, out)
}

/// What is told of the completion by the equations, over the rules that complete others.
fn put_told_on(
    alloc: Global,
    base: &str,
    given: &[(Word, Word)],
    limits: Limits,
    out: &mut String,
) -> Result<(), AllocError> {
    let base = completed(alloc, base, &mut Counter::new())?;
    put_told_over(alloc, &base, given, limits, out)
}

/// What is told of the completion by the equations and the base that are written so, and the answer.
fn put_told_of(
    alloc: Global,
    base: &str,
    text: &str,
    limits: Limits,
    out: &mut String,
) -> Result<(), AllocError> {
    let given = equations(alloc, text)?;
    put_told_on(alloc, base, &given, limits, out)
}

/// The limits of these numbers.
fn limits_of(rt: &impl Abort, max_rules: u32, max_length: u32) -> Limits {
    assert!(rt; 1 <= max_rules && max_rules <= 100000);
    assert!(rt; 1 <= max_length && max_length <= 255);
    Limits {
        max_rules,
        max_length,
    }
}

#[test]
fn a_completion_tells_the_rules_born_up_to_its_limits(rt: HostRuntime) -> Result<(), AllocError> {
    for (name, base, text, (max_rules, max_length), wanted) in TOLD {
        let limits = limits_of(&rt, *max_rules, *max_length);
        let mut out = String::new(rt.alloc());
        put_told_of(rt.alloc(), base, text, limits, &mut out)?;
        assert_row(&rt, name, &out, wanted);
    }
    Ok(())
}

/// The watcher that has memory for two events.
fn forgetful(alloc: Global) -> Result<Tally, AllocError> {
    tally_at(&counts(alloc)?, 1)
}

/// Whether the completion of the equations ends before this watcher.
fn ends(alloc: Global, given: &[(Word, Word)], tally: &mut Tally) -> bool {
    extend(alloc, CompleteRules::empty(alloc), given, AMPLE, tally).is_ok()
}

/// Whether the completion of the equations ends, where the watcher has memory for two events.
fn ends_in_two_events(alloc: Global, text: &str) -> Result<bool, AllocError> {
    let mut tally = forgetful(alloc)?;
    let given = equations(alloc, text)?;
    Ok(ends(alloc, &given, &mut tally))
}

#[test]
fn a_watcher_that_finds_no_memory_ends_the_completion(rt: HostRuntime) -> Result<(), AllocError> {
    assert!(rt; ends_in_two_events(rt.alloc(), "B=A")?);
    assert!(rt; !ends_in_two_events(rt.alloc(), "B=A C=A")?);
    Ok(())
}
