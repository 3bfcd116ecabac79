//! Texts at the limits of what is read.
use crate::running::{runs, undisturbed};
use std::alloc::{AllocError, Global};
use std::process::Abort;
use std::test::Fail;

/// A name; the pieces of a text, each with how many times it stands; then the status and what is printed of it.
type Row = (
    &'static str,
    &'static [(&'static str, usize)],
    u8,
    &'static str,
);

const REPEATED: &[Row] = &[
    (
        "a comment that fills the limit",
        &[("//", 1), ("a", 1_048_574)],
        0,
        "",
    ),
    (
        "a comment one past the limit",
        &[("//", 1), ("a", 1_048_575)],
        1,
        "error: text longer than 1048576 bytes\n",
    ),
    (
        "a type with as many members as there may be",
        &[("func f<T>()\nquery f(T", 1), (".A", 1000), (")", 1)],
        0,
        "invalid\n",
    ),
    (
        "a type with one member more",
        &[("func f<T>()\nquery f(T", 1), (".A", 1001), (")", 1)],
        1,
        "error: unsupported long type at 2021\n",
    ),
    (
        "an argument with as many members as there may be",
        &[
            ("protocol P<A> { associatedtype A }\nfunc f<T: P<T", 1),
            (".A", 1000),
            (">>()", 1),
        ],
        1,
        "error: not a type parameter at 47\n",
    ),
    (
        "an argument with one member more",
        &[
            ("protocol P<A> { associatedtype A }\nfunc f<T: P<T", 1),
            (".A", 1001),
            (">>()", 1),
        ],
        1,
        "error: unsupported long type at 2048\n",
    ),
];

/// Appends a piece, this many times.
fn put_repeated(piece: &str, times: usize, out: &mut Vec<u8>) -> Result<(), AllocError> {
    for _ in 0..times {
        out.extend_from_slice(piece.as_bytes())?;
    }
    Ok(())
}

/// The text of these pieces.
fn text_of(alloc: Global, pieces: &[(&'static str, usize)]) -> Result<Vec<u8>, AllocError> {
    let mut text = Vec::new(alloc);
    for (piece, times) in pieces {
        put_repeated(piece, *times, &mut text)?;
    }
    Ok(text)
}

/// The text of a row is answered as it says.
fn is_answered(rt: &impl Abort, alloc: Global, row: &Row) -> Result<(), Fail> {
    let (name, pieces, status, output) = *row;
    let text = text_of(alloc, pieces)?;
    let setting = undisturbed(name, "answer", &text);
    runs(rt, alloc, setting, status, output.as_bytes())
}

/// The text of each row is.
fn are_answered(rt: &impl Abort, alloc: Global, rows: &[Row]) -> Result<(), Fail> {
    for row in rows {
        is_answered(rt, alloc, row)?;
    }
    Ok(())
}

#[test]
fn texts_up_to_the_limits_are_read(rt: HostRuntime) -> Result<(), Fail> {
    are_answered(&rt, rt.alloc(), REPEATED)
}

const LONG: &[Row] = &[
    (
        "as many comments within one another as the limit has room for",
        &[("/*", 262_144), ("*/", 262_144)],
        0,
        "",
    ),
    (
        "comments that are never closed",
        &[("/*", 500_000)],
        1,
        "error: open comment at 0\n",
    ),
    (
        "a word that fills the limit",
        &[("a", 1_048_576)],
        1,
        "error: syntax at 0\n",
    ),
];

#[test]
fn long_comments_and_words_are_read(rt: HostRuntime) -> Result<(), Fail> {
    are_answered(&rt, rt.alloc(), LONG)
}
