//! Worked rows of reduction, and of the pairs of rules.

use crate::notation::{assert_row, put_word, rules, word};
use std::alloc::{AllocError, Global};
use std::fmt::Write;
use std::process::Abort;
use swreq_complete::pair::{Pair, pairs_of, pairs_up_to};
use swreq_complete::rule::{Rule, RuleList, contains, first_redex, overlaps};
use swreq_complete::word::Symbol;

/// The rules of a protocol N with a member A, and of a generic parameter that conforms to it.
const CONFORMING: &str = "NN=N Na=a NA=a aN=a aA=aa TN=T TA=Ta";

const RULES: &str = "ABC=AA B=A CD=C CD=D CDD=D";

/// By name, rules, a word, the number of the rule whose left side stands first in it, with its place, and the word to which it reduces.
const REDUCED: &[(&str, &str, &str, &str)] = &[
    ("two rules after another", CONFORMING, "TAA", "7 at 0, Taa"),
    ("the empty word", RULES, "", ", "),
    ("a word that no rule reduces", RULES, "DC", ", DC"),
    (
        "the left side that begins first, though a shorter one stands within it",
        RULES,
        "ABC",
        "1 at 0, AA",
    ),
    (
        "a step at the first place makes a left side begin there",
        RULES,
        "BBC",
        "2 at 0, AA",
    ),
    (
        "of two with one left side, the one with the least number",
        RULES,
        "CD",
        "3 at 0, C",
    ),
    (
        "a shorter left side at the same place, though a longer one begins there",
        RULES,
        "CDD",
        "3 at 0, C",
    ),
    ("a left side at a later place", RULES, "DCD", "3 at 1, DC"),
    ("a left side at the last place", RULES, "DDB", "2 at 2, DDA"),
    (
        "the earliest place, though left sides begin at a later one",
        RULES,
        "BCDD",
        "2 at 0, AC",
    ),
    (
        "a shorter left side at a later place, though a longer one begins there",
        RULES,
        "ACDD",
        "3 at 1, AC",
    ),
];

/// The first redex of the word.
fn put_redex(out: &mut String, rules: &[Rule], w: &[Symbol]) -> Result<(), AllocError> {
    match first_redex(rules, w) {
        Some(redex) => write!(out, "{} at {}, ", redex.number, redex.at),
        None => out.push_str(", "),
    }
}

/// The first redex of the word, and the word to which it reduces by the rules.
fn put_reduced_by(
    alloc: Global,
    list: &RuleList,
    letters: &str,
    out: &mut String,
) -> Result<(), AllocError> {
    let mut w = word(alloc, letters)?;
    put_redex(out, list.rules(), &w)?;
    list.reduce(&mut w);
    put_word(out, &w)
}

/// The first redex of the word, and the word to which it reduces.
fn put_reduced(
    alloc: Global,
    text: &str,
    letters: &str,
    out: &mut String,
) -> Result<(), AllocError> {
    let list = rules(alloc, text)?;
    put_reduced_by(alloc, &list, letters, out)
}

#[test]
fn reduction_takes_the_earliest_place_and_there_the_shortest_left_side(
    rt: HostRuntime,
) -> Result<(), AllocError> {
    for (name, text, letters, wanted) in REDUCED {
        let mut out = String::new(rt.alloc());
        put_reduced(rt.alloc(), text, letters, &mut out)?;
        assert_row(&rt, name, &out, wanted);
    }
    Ok(())
}

/// By name, two left sides and a place in the first, and whether the second overlaps the first there, and stands in it.
const PLACES: &[(&str, &str, &str, usize, (bool, bool))] = &[
    ("an overlap of two symbols", "ABC", "BCD", 1, (true, false)),
    ("an overlap of one symbol", "ABC", "CD", 2, (true, false)),
    ("one symbol stands within", "ABC", "B", 1, (false, true)),
    (
        "two symbols stand at the end",
        "ABC",
        "BC",
        1,
        (false, true),
    ),
    (
        "the same word stands in itself",
        "AB",
        "AB",
        0,
        (false, true),
    ),
    (
        "no overlap at the front, and no longer word within",
        "AB",
        "ABC",
        0,
        (false, false),
    ),
    (
        "the empty word stands at the end",
        "AB",
        "",
        2,
        (false, true),
    ),
    (
        "a word does not stand at the end",
        "AB",
        "C",
        2,
        (false, false),
    ),
    ("no place past the end", "AB", "A", 3, (false, false)),
];

/// Whether the second word overlaps the first at the place, and stands in it.
fn found_at(alloc: Global, l: &str, m: &str, at: usize) -> Result<(bool, bool), AllocError> {
    let l = word(alloc, l)?;
    let m = word(alloc, m)?;
    Ok((overlaps(&l, &m, at), contains(&l, &m, at)))
}

#[test]
fn words_overlap_or_stand_in_each_other(rt: HostRuntime) -> Result<(), AllocError> {
    for (name, l, m, at, wanted) in PLACES {
        assert!(rt; found_at(rt.alloc(), l, m, *at)? == *wanted, "{name}");
    }
    Ok(())
}

/// By name, rules, the numbers of two of them, and their pairs. Where the first number is 0, they are all whose greater number is the second.
const CASES: &[(&str, &str, u32, u32, &str)] = &[
    (
        "all pairs of the first rule",
        "NN=N NA=a aN=a",
        0,
        1,
        "1.1.1 NN=NN;",
    ),
    (
        "all pairs whose greater number is the second",
        "NN=N NA=a aN=a",
        0,
        2,
        "1.2.1 NA=Na;",
    ),
    (
        "all pairs whose greater number is the third",
        "NN=N NA=a aN=a",
        0,
        3,
        "3.1.1 aN=aN;3.2.1 aA=aa;",
    ),
    ("a containment within", "ABC=C B=A", 1, 2, "1.2.1 C=AAC;"),
    (
        "no containment of the longer side in the shorter",
        "ABC=C B=A",
        2,
        1,
        "",
    ),
    (
        "a containment at place 0",
        "ABC=D AB=A",
        1,
        2,
        "1.2.0 D=AC;",
    ),
    (
        "no containment at place 0 the other way",
        "ABC=D AB=A",
        2,
        1,
        "",
    ),
    (
        "a containment at the end",
        "ABC=D BC=B",
        1,
        2,
        "1.2.1 D=AB;",
    ),
    (
        "equal left sides contain each other",
        "AB=C AB=D",
        1,
        2,
        "1.2.0 C=D;",
    ),
    (
        "equal left sides contain each other, the other way",
        "AB=C AB=D",
        2,
        1,
        "2.1.0 D=C;",
    ),
    (
        "a rule overlaps itself",
        "ABABA=C D=A",
        1,
        1,
        "1.1.2 CBA=ABC;1.1.4 CBABA=ABABC;",
    ),
    ("a rule does not contain itself", "D=C B=A", 1, 1, ""),
    (
        "an overlap of one symbol",
        "AB=C BC=D",
        1,
        2,
        "1.2.1 CC=AD;",
    ),
    ("no overlap the other way", "AB=C BC=D", 2, 1, ""),
    (
        "an overlap of all but one symbol",
        "ABC=A BCD=B",
        1,
        2,
        "1.2.1 AD=AB;",
    ),
    (
        "overlaps of all but one symbol and of one",
        "AAA=B AAC=C",
        1,
        2,
        "1.2.1 BC=AC;1.2.2 BAC=AAC;",
    ),
    (
        "the empty word as a right side",
        "AB= BC=",
        1,
        2,
        "1.2.1 C=A;",
    ),
];

/// The pair, before a semicolon.
fn put_pair(out: &mut String, pair: &Pair) -> Result<(), AllocError> {
    write!(out, "{}.{}.{} ", pair.place.i, pair.place.j, pair.place.at)?;
    put_word(out, pair.left.symbols())?;
    out.push('=')?;
    put_word(out, pair.right.symbols())?;
    out.push(';')
}

fn put_pairs(out: &mut String, pairs: &[Pair]) -> Result<(), AllocError> {
    for pair in pairs {
        put_pair(out, pair)?;
    }
    Ok(())
}

/// The pairs of the rules with these numbers.
fn pairs_at(
    rt: &impl Abort,
    alloc: Global,
    rules: &[Rule],
    i: u32,
    j: u32,
) -> Result<Vec<Pair>, AllocError> {
    assert!(rt; 0 < j && j as usize <= rules.len() && rules.len() <= 1000);
    if i == 0 {
        return pairs_up_to(alloc, rules, j);
    }
    assert!(rt; i as usize <= rules.len());
    pairs_of(alloc, rules, i, j)
}

fn put_pairs_at(
    rt: &impl Abort,
    alloc: Global,
    rules: &[Rule],
    i: u32,
    j: u32,
    out: &mut String,
) -> Result<(), AllocError> {
    let pairs = pairs_at(rt, alloc, rules, i, j)?;
    put_pairs(out, &pairs)
}

/// The pairs of the rules that are written so.
fn put_pairs_of(
    rt: &impl Abort,
    alloc: Global,
    text: &str,
    i: u32,
    j: u32,
    out: &mut String,
) -> Result<(), AllocError> {
    let list = rules(alloc, text)?;
    put_pairs_at(rt, alloc, list.rules(), i, j, out)
}

#[test]
fn left_sides_overlap_or_contain_each_other(rt: HostRuntime) -> Result<(), AllocError> {
    for (name, text, i, j, wanted) in CASES {
        let mut out = String::new(rt.alloc());
        put_pairs_of(&rt, rt.alloc(), text, *i, *j, &mut out)?;
        assert_row(&rt, name, &out, wanted);
    }
    Ok(())
}
