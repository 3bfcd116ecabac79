//! What words of the form say.

use std::alloc::{AllocError, Global};
use std::fmt::Write;
use swreq_words::{CommandLine, UsageErr, read};

/// The words between single spaces.
fn words_of(alloc: Global, text: &str) -> Result<Vec<String>, AllocError> {
    let mut words = Vec::new(alloc);
    for word in text.split(' ') {
        words.push(String::from_str(alloc, word)?)?;
    }
    Ok(words)
}

/// The command, its number, what it reads, the two limits and whether there is a trace.
fn put_line(out: &mut String, line: &CommandLine) -> Result<(), AllocError> {
    let command = line.command;
    write!(out, "{command:?} {} {:?} ", line.count, command.input())?;
    write!(
        out,
        "{} {} {:?}",
        line.max_rules, line.max_length, line.trace
    )
}

/// What is read of the words between single spaces, or why they are refused.
fn put_said(alloc: Global, text: &str, out: &mut String) -> Result<(), AllocError> {
    let words = words_of(alloc, text)?;
    match read(alloc, &words) {
        Ok(line) => put_line(out, &line),
        Err(refusal) => write!(out, "{refusal}"),
    }
}

/// Words by name, each with what they say.
const SAID: &[(&str, &str, &str)] = &[
    ("answer alone", "answer", "Answer 1 OnePart 4000 64 false"),
    (
        "signatures with a limit of rules and a trace",
        "signatures --max-rules 70 --trace",
        "Signatures 1 OnePart 70 64 true",
    ),
    (
        "rules with the greatest length and the least number of rules",
        "rules --max-length 255 --max-rules 1",
        "Rules 1 OnePart 1 255 false",
    ),
    (
        "the greatest number of rules, behind an equals sign",
        "answer --max-rules=100000",
        "Answer 1 OnePart 100000 64 false",
    ),
    (
        "zeros before the least numbers",
        "answer --max-rules=000001 --max-length=1",
        "Answer 1 OnePart 1 1 false",
    ),
    (
        "the greatest number of gen",
        "gen 100",
        "Gen 100 Nothing 4000 64 false",
    ),
    (
        "zeros before the number of gen, and options after it",
        "gen 007 --trace --max-length 9",
        "Gen 7 Nothing 4000 9 true",
    ),
    (
        "the number of gen between options",
        "gen --max-rules 70 5 --max-length=9",
        "Gen 5 Nothing 70 9 false",
    ),
    (
        "the number of gen after options",
        "gen --trace --max-length=9 1",
        "Gen 1 Nothing 4000 9 true",
    ),
    (
        "the length that is set by default, with a zero before it",
        "answer --max-length=064",
        "Answer 1 OnePart 4000 64 false",
    ),
    (
        "the number of rules that is set by default, with a zero before it",
        "answer --max-rules 04000",
        "Answer 1 OnePart 4000 64 false",
    ),
    (
        "both limits as they are set by default",
        "answer --max-length 64 --max-rules=4000",
        "Answer 1 OnePart 4000 64 false",
    ),
    (
        "explain with a limit of rules and a trace",
        "explain --max-rules=7 --trace",
        "Explain 1 OnePart 7 64 true",
    ),
    (
        "verify alone, which reads two parts",
        "verify",
        "Verify 1 TwoParts 4000 64 false",
    ),
    (
        "paths with both limits and a trace",
        "paths --max-length 9 --max-rules 70 --trace",
        "Paths 1 OnePart 70 9 true",
    ),
    (
        "calls, which reads two parts, with a trace and a length",
        "calls --trace --max-length=9",
        "Calls 1 TwoParts 4000 9 true",
    ),
    (
        "requirements with the greatest length",
        "requirements --max-length=255",
        "Requirements 1 OnePart 4000 255 false",
    ),
    ("gen without its number", "gen", "wrong words"),
];

#[test]
fn words_of_the_form_say_their_command_line(rt: HostRuntime) -> Result<(), AllocError> {
    for (name, text, wanted) in SAID {
        let mut line = String::new(rt.alloc());
        put_said(rt.alloc(), text, &mut line)?;
        assert_eq!(rt; line.as_str(), *wanted, "{name}");
    }
    let memory = format!(in rt.alloc(); "{}", UsageErr::Memory)?;
    assert_eq!(rt; memory.as_str(), "out of memory");
    Ok(())
}
