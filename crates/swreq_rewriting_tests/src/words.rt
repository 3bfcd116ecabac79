//! The order of words, the table of words, and the impls of `Word` through their bounds.

use crate::notation::{assert_line, put_word, word};
use indexmap::IndexSet;
use std::alloc::{AllocError, Global};
use std::fmt::Write;
use swreq_complete::word::{Symbol, Word, WordTable, compare};

/// Words by name. Those of one symbol go by its kind and then by its number; of two words the shorter one comes first, and of words of one length the
/// first symbols in which they differ decide.
const ASCENDING: &[(&str, &[Symbol])] = &[
    ("no symbol", &[]),
    ("the first protocol", &[Symbol::Proto(0)]),
    ("a later protocol", &[Symbol::Proto(9)]),
    ("the first member symbol", &[Symbol::Member(0)]),
    (
        "a member symbol past 32 bits",
        &[Symbol::Member(4_294_967_296)],
    ),
    ("the first generic parameter", &[Symbol::Param(0, 0)]),
    ("a later generic parameter", &[Symbol::Param(0, 9)]),
    (
        "a generic parameter of greater depth",
        &[Symbol::Param(1, 0)],
    ),
    ("the first name", &[Symbol::Name(0)]),
    ("a later name", &[Symbol::Name(9)]),
    ("the layout", &[Symbol::Layout]),
    ("a protocol twice", &[Symbol::Proto(0), Symbol::Proto(0)]),
    (
        "a generic parameter and a protocol",
        &[Symbol::Param(0, 0), Symbol::Proto(0)],
    ),
    (
        "a generic parameter and a name",
        &[Symbol::Param(0, 0), Symbol::Name(0)],
    ),
    (
        "a generic parameter and the layout",
        &[Symbol::Param(0, 0), Symbol::Layout],
    ),
    (
        "a name and a protocol",
        &[Symbol::Name(0), Symbol::Proto(0)],
    ),
];

#[test]
fn shorter_words_come_before_longer_ones(rt: HostRuntime) {
    for (i, (name, a)) in ASCENDING.iter().enumerate() {
        for (j, (other, b)) in ASCENDING.iter().enumerate() {
            assert!(rt; compare(a, b) == i.cmp(&j), "{name}, and {other}");
        }
    }
}

/// The place that the word takes in the table, and the word that stands there.
fn put_interned(
    alloc: Global,
    table: &mut WordTable,
    letters: &str,
    out: &mut String,
) -> Result<(), AllocError> {
    let w = word(alloc, letters)?;
    let id = table.intern(&w)?;
    write!(out, "{}:", id.place)?;
    put_word(out, table.word(id))?;
    out.push(' ')
}

/// The places that the words take in the table, and that of a word that it lacks.
fn put_words(
    alloc: Global,
    table: &mut WordTable,
    words: &str,
    out: &mut String,
) -> Result<(), AllocError> {
    for letters in words.split(' ') {
        put_interned(alloc, table, letters, out)?;
    }
    let lacking = table.find(&Word::new(word(alloc, "T")?));
    write!(out, "{:?}", lacking.map(|id| id.place))?;
    Ok(())
}

/// The places that the words take in a new table, and that of a word that it lacks.
fn put_table(alloc: Global, words: &str, out: &mut String) -> Result<(), AllocError> {
    let mut table = WordTable::new(alloc);
    put_words(alloc, &mut table, words, out)
}

#[test]
fn words_interned_twice_keep_their_ids(rt: HostRuntime) -> Result<(), AllocError> {
    let mut out = String::new(rt.alloc());
    put_table(rt.alloc(), "NN Na TN NN TN TA Na", &mut out)?;
    assert_line(&rt, &out, "0:NN 1:Na 2:TN 0:NN 2:TN 3:TA 1:Na None");
    Ok(())
}

fn smaller<O: Ord + Drop>(a: O, b: O) -> O {
    if a < b { a } else { b }
}

/// The smaller of two words.
fn smaller_word(alloc: Global, a: &str, b: &str) -> Result<Word, AllocError> {
    let a = word(alloc, a)?;
    let b = word(alloc, b)?;
    Ok(smaller(Word::new(a), Word::new(b)))
}

/// The set of the smaller of two words.
fn set_of_smaller(alloc: Global, a: &str, b: &str) -> Result<IndexSet<Word>, AllocError> {
    let mut words = IndexSet::new(alloc);
    words.insert(smaller_word(alloc, a, b)?)?;
    Ok(words)
}

/// Whether the set has a copy of the word.
fn has(alloc: Global, words: &IndexSet<Word>, letters: &str) -> Result<bool, AllocError> {
    let w = Word::new(word(alloc, letters)?);
    Ok(words.contains(&w.clone()?))
}

/// Whether the set of the smaller of both words has the second one alone.
fn keeps_second(alloc: Global, a: &str, b: &str) -> Result<bool, AllocError> {
    let words = set_of_smaller(alloc, a, b)?;
    Ok(has(alloc, &words, b)? && !has(alloc, &words, a)?)
}

#[test]
fn words_compare_and_hash_by_their_symbols(rt: HostRuntime) -> Result<(), AllocError> {
    assert!(rt; keeps_second(rt.alloc(), "NN", "L")?);
    Ok(())
}
