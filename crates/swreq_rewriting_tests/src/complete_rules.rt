//! What complete rules are good for: their reduced system, the paths of words, and the words that they leave.

ghost use Rattle.swreq_homotopy.specs.swreq_path.Paths.{IsPath};

use crate::completions::{completed, ended};
use crate::notation::{PROTOCOL, assert_line, assert_row, equations, put_rule, put_word, word};
use crate::paths::put_way;
use std::alloc::{AllocError, Global};
use std::fmt::Write;
use swreq_complete::CompleteRules;
use swreq_complete::path::Path;
use swreq_complete::rule::Rule;
use swreq_complete::watch::Counter;
use swreq_complete::word::Symbol;

fn put_rules(out: &mut String, rules: &[Rule]) -> Result<(), AllocError> {
    for rule in rules {
        put_rule(out, rule)?;
    }
    Ok(())
}

/// How many rules were born, and the reduced ones.
fn put_reduced(
    alloc: Global,
    rules: &CompleteRules<'_>,
    born: u64,
    out: &mut String,
) -> Result<(), AllocError> {
    write!(out, "{born} born")?;
    put_rules(out, &rules.canonical(alloc)?)
}

/// How many rules are born in the completion of the equations, and the reduced ones.
fn put_reduced_of(alloc: Global, text: &str, out: &mut String) -> Result<(), AllocError> {
    let mut counter = Counter::new();
    let rules = completed(alloc, text, &mut counter)?;
    put_reduced(alloc, &rules, counter.born(), out)
}

const REDUCED: &str = "5 born, B>A 3, CA>A 2.3.1, DA>AD 1.1.1, DD>A 1";

#[test]
fn the_reduced_system_has_no_reducible_side(rt: HostRuntime) -> Result<(), AllocError> {
    let mut out = String::new(rt.alloc());
    put_reduced_of(rt.alloc(), "DD=CB CB=A B=A", &mut out)?;
    assert_line(&rt, &out, REDUCED);
    Ok(())
}

/// By name, rules over a base, a word, the path by which they reduce it, and the word that they leave.
const WAYS: &[(&str, &str, &str, &str, &str)] = &[
    (
        "rules over none",
        "",
        PROTOCOL,
        "NAA",
        "NAA +2A +5 = aa; aa",
    ),
    (
        "a word over a base",
        PROTOCOL,
        "TN=T",
        "TAA",
        "TAA +7A T+5 = Taa; Taa",
    ),
    (
        "a longer word over a base",
        PROTOCOL,
        "TN=T",
        "TANA",
        "TANA +7NA T+3A T+5 = Taa; Taa",
    ),
];

/// A path over the rules.
fn put_path_over(
    alloc: Global,
    rules: &CompleteRules<'_>,
    path: &Path,
    out: &mut String,
) -> Result<(), AllocError>
    requires { IsPath rules.now path.now }
{
    let rules = rules.written_out(alloc)?;
    put_way(alloc, &rules, path, out)
}

/// The path of the word.
fn put_path_of(
    alloc: Global,
    rules: &CompleteRules<'_>,
    w: &[Symbol],
    out: &mut String,
) -> Result<(), AllocError> {
    let path = rules.path(alloc, w)?;
    put_path_over(alloc, rules, &path, out)
}

/// The path of the word, and the word that the rules leave.
fn put_ways(
    alloc: Global,
    rules: &CompleteRules<'_>,
    letters: &str,
    out: &mut String,
) -> Result<(), AllocError> {
    let mut w = word(alloc, letters)?;
    put_path_of(alloc, rules, &w, out)?;
    rules.reduce(&mut w);
    put_word(out, &w)
}

/// The way of these letters by rules that are borrowed.
fn put_ways_over(
    alloc: Global,
    rules: &CompleteRules<'_>,
    letters: &str,
    out: &mut String,
) -> Result<(), AllocError> {
    let over = rules.over(alloc)?;
    put_ways(alloc, &over, letters, out)
}

/// The rules that complete borrowed ones by the equations.
fn extended<'b>(
    alloc: Global,
    base: &'b CompleteRules<'_>,
    text: &str,
) -> Result<CompleteRules<'b>, AllocError> {
    let given = equations(alloc, text)?;
    ended(alloc, base.over(alloc)?, &given, &mut Counter::new())
}

/// The way of these letters by the rules that complete borrowed ones by the equations.
fn put_ways_on(
    alloc: Global,
    base: &CompleteRules<'_>,
    text: &str,
    letters: &str,
    out: &mut String,
) -> Result<(), AllocError> {
    let rules = extended(alloc, base, text)?;
    put_ways_over(alloc, &rules, letters, out)
}

/// The way of these letters by the rules that complete the base by the equations, over a base that is itself over another.
fn put_ways_of(
    alloc: Global,
    base: &str,
    text: &str,
    letters: &str,
    out: &mut String,
) -> Result<(), AllocError> {
    let base = completed(alloc, base, &mut Counter::new())?;
    put_ways_on(alloc, &base, text, letters, out)
}

#[test]
fn rules_over_others_reduce_to_the_least_word(rt: HostRuntime) -> Result<(), AllocError> {
    for (name, base, text, letters, wanted) in WAYS {
        let mut out = String::new(rt.alloc());
        put_ways_of(rt.alloc(), base, text, letters, &mut out)?;
        assert_row(&rt, name, &out, wanted);
    }
    Ok(())
}
