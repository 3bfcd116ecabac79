//! Worked rows of the search and of the places.

ghost use Rattle.std.specs.Prelude.{◌<◌, ◌≤◌, length};

use crate::notation::{assert_line, assert_row, word};
use std::alloc::{AllocError, Global};
use std::fmt::Write;
use std::process::Abort;
use swreq_complete::rule::Place;
use swreq_complete::trie::Trie;
use swreq_complete::word::Symbol;

/// Stores the side of these letters with its number.
fn store(
    rt: &impl Abort,
    alloc: Global,
    trie: &mut Trie,
    letters: &str,
    number: u32,
) -> Result<(), AllocError> {
    let left = word(alloc, letters)?;
    assert!(rt; 0 < left.len());
    trie.insert(&left, number)
}

/// The trie of these left sides, each with its number.
fn stored(rt: &impl Abort, alloc: Global, sides: &[(u32, &str)]) -> Result<Trie, AllocError> {
    let mut trie = Trie::new(alloc);
    for (number, letters) in sides {
        store(rt, alloc, &mut trie, letters, *number)?;
    }
    Ok(trie)
}

/// By name, stored sides, another side with its number, the side that is found at each of its places, and its places with the stored ones
/// and with itself: the two numbers, and where the second side begins in the first.
const CASES: &[(&str, &[(u32, &str)], &str, u32, &str)] = &[
    (
        "the sides of a protocol and a generic parameter",
        &[
            (1, "NN"),
            (2, "NA"),
            (3, "aN"),
            (4, "Na"),
            (5, "aA"),
            (6, "TN"),
            (7, "TA"),
        ],
        "NaA",
        8,
        "4 5 - - of 7, longest 2; 1.8.1 3.8.1 6.8.1 8.4.0 8.5.1",
    ),
    (
        "the first of equal sides, and a shorter one before a longer one",
        &[(1, "AB"), (2, "A"), (3, "BCD"), (4, "A")],
        "BCDBC",
        9,
        "3 - - - - - of 4, longest 3; 1.9.1 9.3.0 9.3.3 9.9.3",
    ),
    ("an empty trie", &[], "AB", 1, "- - - of 0, longest 0;"),
    (
        "the end of a stored side is the front of the side",
        &[(1, "NN"), (2, "NA"), (3, "aN"), (4, "Na")],
        "aA",
        5,
        "- - - of 4, longest 2; 4.5.1",
    ),
    (
        "by the first number and then by the second",
        &[(1, "NN"), (2, "NA"), (3, "aN")],
        "Na",
        4,
        "- - - of 3, longest 2; 1.4.1 3.4.1 4.3.1",
    ),
    (
        "the side stands within a stored one",
        &[(1, "ABC")],
        "B",
        2,
        "- - of 1, longest 3; 1.2.1",
    ),
    (
        "the side stands at the front of a stored one",
        &[(1, "ABC")],
        "AB",
        2,
        "- - - of 1, longest 3; 1.2.0",
    ),
    (
        "the side stands at the end of a stored one",
        &[(1, "ABC")],
        "BC",
        2,
        "- - - of 1, longest 3; 1.2.1",
    ),
    (
        "a stored side stands within",
        &[(1, "B")],
        "ABC",
        2,
        "- 1 - - of 1, longest 1; 2.1.1",
    ),
    (
        "a stored side stands at the front",
        &[(1, "AB")],
        "ABC",
        2,
        "1 - - - of 1, longest 2; 2.1.0",
    ),
    (
        "the same side under two numbers",
        &[(1, "AB")],
        "AB",
        2,
        "1 - - of 1, longest 2; 1.2.0 2.1.0",
    ),
    (
        "overlaps with itself, of one symbol and of more",
        &[],
        "ABABA",
        1,
        "- - - - - - of 0, longest 0; 1.1.2 1.1.4",
    ),
    (
        "an overlap of all but one symbol",
        &[(1, "ABC")],
        "BCD",
        2,
        "- - - - of 1, longest 3; 1.2.1",
    ),
    (
        "an overlap of all but one symbol, the other way",
        &[(1, "BCD")],
        "ABC",
        2,
        "- - - - of 1, longest 3; 2.1.1",
    ),
    (
        "equal fronts",
        &[(1, "AAA")],
        "AAC",
        2,
        "- - - - of 1, longest 3; 1.2.1 1.2.2",
    ),
    (
        "several, by the numbers and then by the place",
        &[(1, "AA"), (2, "AB"), (3, "BA")],
        "AAB",
        4,
        "1 2 - - of 3, longest 2; 1.4.1 3.4.1 4.1.0 4.2.1 4.3.2",
    ),
    (
        "a stored side with a greater number is left out",
        &[(3, "AB"), (1, "BC")],
        "BA",
        2,
        "- - - of 2, longest 2;",
    ),
];

/// The side that is found at the place.
fn put_found_at(out: &mut String, trie: &Trie, w: &[Symbol], at: usize) -> Result<(), AllocError>
    requires { at ≤ length w.now }
{
    match trie.find_at(w, at) {
        Ok(number) => write!(out, "{number} "),
        Err(_) => out.push_str("- "),
    }
}

/// The sides that are found at each place of the word.
fn put_found(out: &mut String, trie: &Trie, w: &[Symbol]) -> Result<(), AllocError>
    requires { length w.now < 100 }
{
    for at in 0..w.len() + 1 {
        put_found_at(out, trie, w, at)?;
    }
    Ok(())
}

fn put_places(out: &mut String, places: &[Place]) -> Result<(), AllocError> {
    for place in places {
        write!(out, " {}.{}.{}", place.i, place.j, place.at)?;
    }
    Ok(())
}

/// How many sides there are, a length that none passes, and the places of the side.
fn put_overlaps(
    alloc: Global,
    trie: &Trie,
    w: &[Symbol],
    number: u32,
    out: &mut String,
) -> Result<(), AllocError>
    requires { 0 < length w.now }
{
    let count = trie.entries().len();
    write!(out, "of {count}, longest {};", trie.longest())?;
    let places = trie.overlaps(alloc, w, number)?;
    put_places(out, &places)
}

/// What is found of a side in the trie.
fn put_case_in(
    rt: &impl Abort,
    alloc: Global,
    trie: &Trie,
    letters: &str,
    number: u32,
    out: &mut String,
) -> Result<(), AllocError> {
    let w = word(alloc, letters)?;
    assert!(rt; 0 < w.len() && w.len() < 100);
    put_found(out, trie, &w)?;
    put_overlaps(alloc, trie, &w, number, out)
}

/// What is found of a side in the trie of these.
fn put_case(
    rt: &impl Abort,
    alloc: Global,
    sides: &[(u32, &str)],
    letters: &str,
    number: u32,
    out: &mut String,
) -> Result<(), AllocError> {
    let trie = stored(rt, alloc, sides)?;
    put_case_in(rt, alloc, &trie, letters, number, out)
}

#[test]
fn sides_are_found_where_they_begin_overlap_or_stand_in_each_other(
    rt: HostRuntime,
) -> Result<(), AllocError> {
    for (name, sides, letters, number, wanted) in CASES {
        let mut out = String::new(rt.alloc());
        put_case(&rt, rt.alloc(), sides, letters, *number, &mut out)?;
        assert_row(&rt, name, &out, wanted);
    }
    Ok(())
}

/// What the search at each place of the word answers.
fn put_searches(out: &mut String, trie: &Trie, w: &[Symbol]) -> Result<(), AllocError> {
    for at in 0..w.len() {
        match trie.find_at(w, at) {
            Ok(number) => write!(out, "side {number} ")?,
            Err(count) => write!(out, "{count} ")?,
        }
    }
    Ok(())
}

/// What the search in the trie of three sides answers, at each place of these letters.
fn put_searches_of(
    rt: &impl Abort,
    alloc: Global,
    letters: &str,
    out: &mut String,
) -> Result<(), AllocError> {
    let w = word(alloc, letters)?;
    let trie = stored(rt, alloc, &[(1, "ABC"), (2, "BCA"), (3, "CAB")])?;
    put_searches(out, &trie, &w)
}

/// How many symbols tell that no side begins, at each place: up to the first by which none goes on, and one more than there are where none
/// has room.
#[test]
fn a_search_reads_no_further_than_some_side_goes_on(rt: HostRuntime) -> Result<(), AllocError> {
    let mut out = String::new(rt.alloc());
    put_searches_of(&rt, rt.alloc(), "ABBCCABB", &mut out)?;
    assert_line(&rt, &out, "3 3 5 5 side 3 8 9 9 ");
    Ok(())
}
