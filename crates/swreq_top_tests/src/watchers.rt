//! Runs that a watcher is told of.

use crate::running::status_over;
use std::alloc::{AllocError, Global};
use std::test::Fail;
use swreq_samples::{Tally, counts, tally_at};
use swreq_text::{CountSink, MemSink};
use swreq_watch::{Event, Quiet, Recorder};

const TEXT: &[u8] = b"protocol N { associatedtype Next: N }\nfunc f<T: N>()\nquery f(T : N)\n";

#[test]
fn streams_that_never_fail_give_status_0(rt: HostRuntime) -> Result<(), Fail> {
    let mut out = CountSink::new();
    let status = status_over(rt.alloc(), "answer", TEXT, &mut out, &mut Quiet)?;
    assert_eq!(rt; status, 0);
    assert_eq!(rt; out.count(), 4);
    Ok(())
}

/// A watcher that has memory for two events.
fn forgetful(alloc: Global) -> Result<Tally, AllocError> {
    let counts = counts(alloc)?;
    tally_at(&counts, 1)
}

/// The status of a run with such a watcher.
fn status_of_forgetful(alloc: Global, out: &mut MemSink) -> Result<u8, AllocError> {
    let mut tally = forgetful(alloc)?;
    status_over(alloc, "answer", TEXT, out, &mut tally)
}

#[test]
fn a_watcher_without_memory_ends_the_run(rt: HostRuntime) -> Result<(), Fail> {
    let mut out = MemSink::new(rt.alloc(), 1000, 1000, Vec::new(rt.alloc()))?;
    let status = status_of_forgetful(rt.alloc(), &mut out)?;
    assert_eq!(rt; status, 6);
    assert_eq!(rt; out.bytes(), b"error: out of memory\n".as_slice());
    Ok(())
}

/// A text with a call.
const CALLED: &[u8] = b"protocol P { }\nfunc f<T: P>()\nfunc g<U: P>()\n%%\nf: g(T)\n";

/// A text whose second part stands for no calls.
const MISCALLED: &[u8] = b"protocol P { }\nfunc f<T: P>()\nfunc g<U: P>()\n%%\nf: g(\n";

/// A list whose rules are too long without both `T : M` and `T : N`, of which either says that `T.A` is `T`: else `T.A == T.A.B` follows from
/// `T == T.B`, and so do `T.A.A == T.A.A.B` and all longer ones.
const EITHER: &[u8] = b"\
protocol M { associatedtype A where A == Self }
protocol N { associatedtype A where A == Self }
protocol P { associatedtype A: P associatedtype B: P where A.B == B.A }
func f<T: M & N & P>() where T.B == T, T: AnyObject
";

/// Two protocols, of which the second requires a layout that follows from the first.
const LAYOUT_AGAIN: &[u8] = b"protocol Q: AnyObject { }\nprotocol P: Q, AnyObject { }\n";

/// Two protocols that require a layout of their own.
const LAYOUTS: &[u8] = b"protocol Q: AnyObject { }\nprotocol P: AnyObject { }\n";

/// A struct, and a function that adds nothing to it.
const NESTED: &[u8] = b"protocol P { }\nstruct S<T: P> { func m() }\n";

/// A conformance that names leave open, since a member of another protocol has its name, and whose protocol is out of reach without it.
const BEYOND: &[u8] = b"\
protocol Q { }
protocol P { associatedtype A: Q }
protocol R { associatedtype A: Q }
";

/// By name, for the words of a run its text, the status, how many completions a watcher is told to start, and how many rules to be born.
///
/// - The protocol N has a round without its requirement, with 3 rules, and one with it, with 5. Where the requirement is written twice, the
///   second is asked by the same two rounds, and the first is unsaid.
/// - The protocols of `LAYOUT_AGAIN` have rounds with 2 and 5 rules. Whether `Self : AnyObject` of P follows is asked by rounds of the
///   other two requirements, with 2 and 5 rules. It follows and is left out, and each of the others is then unsaid.
/// - The protocols of `LAYOUTS` have rounds with 2 and 4 rules. Neither layout is unsaid, since the other is of `Self` too. The protocol of
///   the other is out of reach, so each is asked by one round without requirements, with 2 rules, and stays.
/// - The protocols of `BEYOND` have rounds with 7 and 9 rules. Neither conformance is unsaid, since the other is of a member A too. Without
///   it its protocol requires nothing, so Q is out of reach, and no round is asked.
/// - The protocol P of `NESTED` has a round, with 1 rule. The struct has one without its requirement, with none, and one with it, with 1.
///   The same two are told of its function.
/// - The protocol P of `CALLED` has a round, with 1 rule. Each function has one without its requirement, with none, and one with it,
///   with 1.
/// - The protocols of `EITHER` have rounds with 11, 17 and 18 rules, and the function with none, 7 and 8. Minimising grows the rules of
///   `T == T.B` by those of `T : P` and `T : AnyObject`, and passes the limit. So for each of `T : M` and `T : N` the machine of the others
///   is built, by rounds with none, 6 and 7.
const TOLD: &[(&str, &str, &[u8], (u8, u32, u32))] = &[
    ("answer, of the protocol N", "answer", TEXT, (0, 4, 10)),
    (
        "requirements, with one written twice",
        "requirements",
        b"protocol N { associatedtype Next: N, N }\n",
        (0, 4, 16),
    ),
    (
        "requirements, with a layout that follows",
        "requirements",
        LAYOUT_AGAIN,
        (0, 4, 14),
    ),
    (
        "requirements, with two layouts",
        "requirements",
        LAYOUTS,
        (0, 4, 10),
    ),
    (
        "requirements, with a conformance out of reach",
        "requirements",
        BEYOND,
        (0, 2, 16),
    ),
    (
        "answer, of a function that adds nothing to its struct",
        "answer",
        NESTED,
        (0, 5, 3),
    ),
    ("calls", "calls", CALLED, (0, 5, 3)),
    ("calls that are refused", "calls", MISCALLED, (1, 5, 3)),
    (
        "verify, which completes nothing",
        "verify",
        b"func f<T>()\nquery f(T == T)\n%%\nno\n",
        (0, 0, 0),
    ),
    (
        "signatures, whose minimising passes a limit",
        "signatures --max-length 2",
        EITHER,
        (0, 12, 87),
    ),
];

/// How many completions start by these events, and how many rules are born.
fn counted(events: &[Event]) -> (u32, u32) {
    let mut starts = 0u32;
    let mut born = 0u32;
    for event in events {
        match event {
            Event::Start { .. } => starts = starts.saturating_add(1),
            Event::Born { .. } => born = born.saturating_add(1),
        }
    }
    (starts, born)
}

/// The status of a run, how many completions a watcher is told to start, and how many rules to be born.
fn told(alloc: Global, words: &str, text: &[u8]) -> Result<(u8, u32, u32), AllocError> {
    let mut recorder = Recorder::new(alloc);
    let status = status_over(alloc, words, text, &mut CountSink::new(), &mut recorder)?;
    let (starts, born) = counted(recorder.events());
    Ok((status, starts, born))
}

#[test]
fn a_watcher_is_told_of_each_completion(rt: HostRuntime) -> Result<(), Fail> {
    for (name, words, text, wanted) in TOLD {
        let told = told(rt.alloc(), words, text)?;
        assert_eq!(rt; told, *wanted, "{name}");
    }
    Ok(())
}
