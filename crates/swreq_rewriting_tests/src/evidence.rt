//! Worked rows of the loops of pairs, and of the rules that a loop shows.

ghost use Rattle.std.specs.Prelude.{⊤, IfOk, MatchOption};
ghost use Rattle.swreq_homotopy.specs.swreq_path.Paths.{IsLoop};
ghost use Rattle.swreq_homotopy.specs.Evidence.{AreLoops};

use crate::notation::{assert_row, put_path, rules};
use std::alloc::{AllocError, Global};
use std::fmt::Write;
use std::process::Abort;
use swreq_complete::pair::is_pair;
use swreq_complete::path::Loop;
use swreq_complete::rule::{Place, Rule};
use swreq_homotopy::{Evidence, loop_of_pair, redundant};

/// By name, three rules, the place of a pair, the rules that are kept and those that may go; the loop of the pair, and what it shows: a rule, and
/// the path without it.
const SHOWN: &[(&str, &str, (u32, u32, usize), &str, &str, &str)] = &[
    (
        "a step back over equal generic parameters",
        EQUAL,
        (2, 3, 0),
        "123",
        "3",
        "V +2 +1 -3; 3: V +2 +1",
    ),
    (
        "a step forward over equal generic parameters",
        EQUAL,
        (2, 3, 0),
        "123",
        "1",
        "V +2 +1 -3; 1: U -2 +3",
    ),
    (
        "the first step of the loop that shows a rule",
        EQUAL,
        (2, 3, 0),
        "123",
        "123",
        "V +2 +1 -3; 2: V +3 -1",
    ),
    (
        "no rule is free to go",
        EQUAL,
        (2, 3, 0),
        "123",
        "",
        "V +2 +1 -3; ",
    ),
    (
        "the rule is not kept",
        EQUAL,
        (2, 3, 0),
        "12",
        "3",
        "V +2 +1 -3; ",
    ),
    (
        "another rule of the loop is not kept",
        EQUAL,
        (2, 3, 0),
        "23",
        "3",
        "V +2 +1 -3; ",
    ),
    (
        "a rule in a context is not shown",
        CONTEXT,
        (3, 2, 0),
        "123",
        "12",
        "CD +3 -1D -2D; ",
    ),
    (
        "the rule without a context is shown",
        CONTEXT,
        (3, 2, 0),
        "123",
        "123",
        "CD +3 -1D -2D; 3: CD +2D +1D",
    ),
    (
        "a rule that the loop uses twice is not shown",
        "D=C D=C C=A",
        (1, 2, 0),
        "123",
        "3",
        "D +1 +3 -3 -2; ",
    ),
    (
        "the loop of an overlap",
        "AB=C BC=D CC=AD",
        (1, 2, 1),
        "123",
        "",
        "ABC +1C +3 A-2; ",
    ),
    (
        "the loop of a containment within",
        "ABC=AA B= AC=AA",
        (1, 2, 1),
        "123",
        "",
        "ABC +1 -3 A-2C; ",
    ),
    (
        "sides that reduce to two words",
        "C=B C=A D=A",
        (1, 2, 0),
        "123",
        "123",
        "none",
    ),
];

const EQUAL: &str = "U=T V=U V=T";

const CONTEXT: &str = "B=A C=B CD=AD";

/// The loop of the pair at the place.
fn loop_at(
    rt: &impl Abort,
    alloc: Global,
    rules: &[Rule],
    place: Place,
) -> Result<Option<Loop>, AllocError>
    ensures { IfOk result (λ found. MatchOption found ⊤ (IsLoop rules.now)) }
{
    assert!(rt; rules.len() < 100);
    assert!(rt; 0 < place.i && place.i as usize <= rules.len());
    assert!(rt; 0 < place.j && place.j as usize <= rules.len());
    assert!(rt; is_pair(rules, place));
    loop_of_pair(alloc, rules, place)
}

/// What the loops show.
fn shown(
    rt: &impl Abort,
    alloc: Global,
    rules: &[Rule],
    loops: &[Loop],
    keep: &str,
    may: &str,
) -> Result<Option<Evidence>, AllocError>
    requires { AreLoops rules.now loops.now }
{
    assert!(rt; rules.len() == 3);
    let kept = [keep.contains('1'), keep.contains('2'), keep.contains('3')];
    let free = [may.contains('1'), may.contains('2'), may.contains('3')];
    redundant(alloc, rules, loops, &kept, &free)
}

/// The rule, and the path without it.
fn put_evidence(out: &mut String, found: &Evidence) -> Result<(), AllocError> {
    write!(out, "{}: ", found.rule)?;
    put_path(out, &found.path)
}

/// What the loops show of the rules with these marks.
fn put_found(
    rt: &impl Abort,
    alloc: Global,
    rules: &[Rule],
    loops: &[Loop],
    marks: (&str, &str),
    out: &mut String,
) -> Result<(), AllocError>
    requires { AreLoops rules.now loops.now }
{
    match shown(rt, alloc, rules, loops, marks.0, marks.1)? {
        Some(found) => put_evidence(out, &found),
        None => Ok(()),
    }
}

/// The loop, and what it shows.
fn put_loop(
    rt: &impl Abort,
    alloc: Global,
    rules: &[Rule],
    round: Loop,
    marks: (&str, &str),
    out: &mut String,
) -> Result<(), AllocError>
    requires { IsLoop rules.now round }
{
    put_path(out, &round.path)?;
    out.push_str("; ")?;
    put_found(rt, alloc, rules, &[round], marks, out)
}

/// The loop of the pair at the place, and what it shows.
fn put_shown_over(
    rt: &impl Abort,
    alloc: Global,
    rules: &[Rule],
    place: Place,
    marks: (&str, &str),
    out: &mut String,
) -> Result<(), AllocError> {
    match loop_at(rt, alloc, rules, place)? {
        Some(round) => put_loop(rt, alloc, rules, round, marks, out),
        None => out.push_str("none"),
    }
}

/// The loop of the pair of the rules that are written so, and what it shows.
fn put_shown(
    rt: &impl Abort,
    alloc: Global,
    text: &str,
    place: Place,
    marks: (&str, &str),
    out: &mut String,
) -> Result<(), AllocError> {
    let list = rules(alloc, text)?;
    put_shown_over(rt, alloc, list.rules(), place, marks, out)
}

#[test]
fn a_loop_shows_rules_that_it_uses_bare_and_once(rt: HostRuntime) -> Result<(), AllocError> {
    for (name, text, (i, j, at), keep, may, wanted) in SHOWN {
        let place = Place {
            i: *i,
            j: *j,
            at: *at,
        };
        let mut out = String::new(rt.alloc());
        put_shown(&rt, rt.alloc(), text, place, (keep, may), &mut out)?;
        assert_row(&rt, name, &out, wanted);
    }
    Ok(())
}
