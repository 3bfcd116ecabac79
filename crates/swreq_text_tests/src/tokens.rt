//! Texts and their tokens.

use std::alloc::{AllocError, Global};
use std::fmt::Write;
use std::process::Abort;
use swreq_world::lex::{TEXT_LIMIT, Token, tokens_from};

/// The tokens as one line.
fn put_tokens(out: &mut String, tokens: &[Token]) -> Result<(), AllocError> {
    for token in tokens {
        write!(out, "{:?} {}-{} ", token.kind, token.start, token.end)?;
    }
    Ok(())
}

/// The tokens of a text from an offset on, or the refusal.
fn put_tokens_from(
    rt: &impl Abort,
    alloc: Global,
    text: &[u8],
    from: u32,
    out: &mut String,
) -> Result<(), AllocError> {
    assert!(rt; text.len() <= TEXT_LIMIT && from as usize <= text.len());
    match tokens_from(alloc, text, from) {
        Ok(found) => put_tokens(out, &found),
        Err(e) => write!(out, "{e}"),
    }
}

/// Texts by name, each with an offset, and the tokens from there on or the refusal.
const TOKENS: &[(&str, &[u8], u32, &str)] = &[
    ("two names from the front", b"a b", 0, "Name 0-1 Name 2-3 "),
    ("two names from a later place", b"a b", 1, "Name 2-3 "),
    ("two names from their end", b"a b", 3, ""),
    ("a name from its middle", b"ab", 1, "Name 1-2 "),
    (
        "a line comment from its middle",
        b"// a",
        1,
        "bad character at 1",
    ),
    (
        "an open comment from its front",
        b"a /* b",
        2,
        "open comment at 2",
    ),
    (
        "a byte order mark at the front",
        b"\xef\xbb\xbfa",
        0,
        "Name 3-4 ",
    ),
    (
        "a byte order mark before the place of the start",
        b"\xef\xbb\xbfa",
        3,
        "Name 3-4 ",
    ),
    (
        "a byte order mark between names",
        b"a \xef\xbb\xbfb",
        2,
        "bad character at 2",
    ),
    (
        "a byte order mark after a blank",
        b" \xef\xbb\xbf",
        0,
        "bad character at 1",
    ),
    ("each white space", b"\t\x0b\x0c\r\n a", 0, "Name 6-7 "),
    (
        "a space that is none",
        b"\xc2\xa0a",
        0,
        "bad character at 0",
    ),
    ("a zero byte", b"a\0", 0, "bad character at 1"),
    (
        "a line comment ends at a line feed",
        b"// /* \na",
        0,
        "Name 7-8 ",
    ),
    (
        "a line comment ends at a carriage return",
        b"// a\rb",
        0,
        "Name 5-6 ",
    ),
    ("a line comment ends at both", b"// a\r\nb", 0, "Name 6-7 "),
    (
        "a line comment goes on behind a vertical tab",
        b"//\x0bb",
        0,
        "",
    ),
    (
        "the longest mark is taken",
        b"===",
        0,
        "Mark { n: 11 } 0-2 Mark { n: 19 } 2-3 ",
    ),
    (
        "an arrow before a mark",
        b"->>",
        0,
        "Mark { n: 20 } 0-2 Mark { n: 5 } 2-3 ",
    ),
    (
        "names and marks without white space",
        b"a.b:c",
        0,
        "Name 0-1 Mark { n: 9 } 1-2 Name 2-3 Mark { n: 7 } 3-4 Name 4-5 ",
    ),
    (
        "an underscore, and a name that begins with one",
        b"_ _a",
        0,
        "Underscore 0-1 Name 2-4 ",
    ),
    (
        "a reserved word, and a name of the same letters",
        b"Self self",
        0,
        "Reserved { n: 4 } 0-4 Name 5-9 ",
    ),
    (
        "a reserved word, and a name that begins with it",
        b"any anyone",
        0,
        "Reserved { n: 24 } 0-3 Name 4-10 ",
    ),
    (
        "a name beyond ASCII",
        b"gr\xc3\xb6\xc3\x9fe",
        0,
        "Name 0-7 ",
    ),
    ("no UTF-8 in a comment", b"//\xff", 0, "not UTF-8 at 2"),
    ("no UTF-8 at the front", b"\xff", 0, "not UTF-8 at 0"),
    (
        "no UTF-8 behind what is refused too",
        b"# /* \x80",
        0,
        "not UTF-8 at 5",
    ),
    (
        "a letter of three bytes that breaks off",
        b"a\xe2\x82",
        0,
        "not UTF-8 at 1",
    ),
    (
        "no UTF-8 behind a byte order mark",
        b"\xef\xbb\xbf\xc0",
        0,
        "not UTF-8 at 3",
    ),
    (
        "half of a surrogate pair",
        b"\xed\xa0\x80",
        0,
        "not UTF-8 at 0",
    ),
    ("a start within a letter", b"a\xc3\xb6", 2, "not UTF-8 at 2"),
];

#[test]
fn parts_of_texts_have_these_tokens(rt: HostRuntime) -> Result<(), AllocError> {
    for (name, text, from, want) in TOKENS {
        let mut line = String::new(rt.alloc());
        put_tokens_from(&rt, rt.alloc(), text, *from, &mut line)?;
        assert_eq!(rt; line.as_str(), *want, "{name}");
    }
    Ok(())
}
