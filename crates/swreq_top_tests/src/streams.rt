//! What the streams do to a run.
use crate::running::{Setting, runs, status_of, undisturbed};
use std::alloc::Global;
use std::process::Abort;
use std::test::Fail;
use swreq_text::{MemSink, MemSource, Source};
use swreq_watch::Quiet;

/// By name, words, with the status and the first byte of what is printed.
type Unread = (&'static str, &'static str, u8, u8);

/// Words that are refused, and words for which nothing is read.
const UNREAD: &[Unread] = &[
    ("no command", "fly", 2, b'u'),
    ("gen past a limit", "gen 3 --max-rules 1", 3, b'e'),
];

/// A run over this source gives the status of a row, and prints a text that begins as the row says.
fn says(rt: &impl Abort, alloc: Global, row: &Unread, src: &mut MemSource) -> Result<(), Fail> {
    let (name, words, status, first) = *row;
    let mut out = MemSink::new(alloc, 1000, 1000, Vec::new(alloc))?;
    let came = status_of(alloc, words, src, &mut out, &mut Quiet)?;
    assert_eq!(rt; came, status, "{name}");
    assert_eq!(rt; out.bytes().first(), Some(&first), "{name}");
    Ok(())
}

/// It leaves the source unchanged.
fn reads_nothing(rt: &impl Abort, alloc: Global, row: &Unread) -> Result<(), Fail> {
    let mut src = MemSource::new(b"query".to_vec(alloc)?, 10, Vec::new(alloc));
    says(rt, alloc, row, &mut src)?;
    assert_eq!(rt; src.read(&mut [0u8; 10]), Ok(5), "{}", row.0);
    Ok(())
}

#[test]
fn wrong_words_and_gen_read_nothing(rt: HostRuntime) -> Result<(), Fail> {
    for row in UNREAD {
        reads_nothing(&rt, rt.alloc(), row)?;
    }
    Ok(())
}

/// By name, for each command that reads a text its words, a short text, the status and what is printed; and a text that is refused.
const COMMANDS: &[(&str, &str, &str, u8, &str)] = &[
    (
        "answer",
        "answer",
        "protocol N { associatedtype Next: N }\nfunc f<T: N>()\nquery f(T.Next : N)\nquery f(T.Next)\n",
        0,
        "yes\nτ_0_0.[N]Next\n",
    ),
    (
        "signatures",
        "signatures",
        "protocol N { associatedtype Next: N }\nfunc f<T: N>() where T.Next: N\n",
        0,
        "f: <τ_0_0 where τ_0_0 : N>\n",
    ),
    (
        "rules",
        "rules",
        "protocol P { }\nfunc f<T: P>()\n",
        0,
        "f: 2 rules\n  [P].[P] => [P]\n  τ_0_0.[P] => τ_0_0\n",
    ),
    (
        "explain",
        "explain",
        "protocol N { associatedtype Next: N }\nfunc f<T: N>()\nquery f(T : N)\n",
        0,
        "yes\n  1. τ_0_0 : N by CONF 1\n",
    ),
    (
        "verify",
        "verify",
        "protocol N { associatedtype Next: N }\nfunc f<T: N>()\nquery f(T : N)\n%%\nyes\n  1. τ_0_0 : N by CONF 1\n",
        0,
        "ok\n",
    ),
    (
        "paths",
        "paths",
        "protocol N { associatedtype Next: N }\nfunc f<T: N>()\nquery f(T.Next : N)\n",
        0,
        "yes\n  [τ_0_0 : N][Self.Next : N]\n",
    ),
    (
        "calls",
        "calls",
        "protocol P { }\nfunc f<T>()\nfunc g<U: P>()\n%%\nf: g(T)\n",
        0,
        "no: τ_0_0 : P\n",
    ),
    (
        "requirements",
        "requirements",
        "protocol P { }\nprotocol Q: P, P { }\n",
        0,
        "P: <Self>\nQ: <Self where Self : P>\n",
    ),
    (
        "a text that is refused",
        "answer",
        "class C { }\n",
        1,
        "error: unsupported class at 0\n",
    ),
];

/// Each read of the text may fail. It comes in pieces of 10, and one read more finds its end.
fn reads_fail(rt: &impl Abort, alloc: Global, all: Setting<'_>) -> Result<(), Fail> {
    for (before, _) in all.text.chunks(10).enumerate() {
        let setting = Setting {
            failing_read: u32::try_from(before + 1)?,
            ..all
        };
        runs(rt, alloc, setting, 4, b"error: read fault\n")?;
    }
    Ok(())
}

/// The sink may have room for any part of the output.
fn room_is_short(
    rt: &impl Abort,
    alloc: Global,
    all: Setting<'_>,
    output: &[u8],
) -> Result<(), Fail> {
    for room in 0..output.len() {
        let setting = Setting {
            room: u32::try_from(room)?,
            ..all
        };
        runs(rt, alloc, setting, 5, &output[..room])?;
    }
    Ok(())
}

#[test]
fn a_read_and_a_write_of_each_command_may_fail(rt: HostRuntime) -> Result<(), Fail> {
    for (name, words, text, status, output) in COMMANDS {
        let all = undisturbed(name, words, text.as_bytes());
        runs(&rt, rt.alloc(), all, *status, output.as_bytes())?;
        reads_fail(&rt, rt.alloc(), all)?;
        room_is_short(&rt, rt.alloc(), all, output.as_bytes())?;
    }
    Ok(())
}

/// By name, texts that are answered, and of which the second write fails, with the status and what is taken.
const CLOGGED: &[(&str, &[u8], u8, &[u8])] = &[
    (
        "an output in one write",
        b"func f<T>()\nquery f(T : AnyObject)\n",
        0,
        b"no\n",
    ),
    ("an output in several writes", b"class C { }\n", 5, b"err"),
];

#[test]
fn a_write_in_mid_stream_may_fail(rt: HostRuntime) -> Result<(), Fail> {
    for (name, text, status, taken) in CLOGGED {
        let setting = Setting {
            failing_write: 2,
            ..undisturbed(name, "answer", text)
        };
        runs(&rt, rt.alloc(), setting, *status, taken)?;
    }
    Ok(())
}
