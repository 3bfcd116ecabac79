//! Answers what the generic signatures of a text imply, from the standard input to the standard output.
#![tactic(auto)]

use std::env;
use std::io::{self, ErrorKind};
use std::process::ExitCode;
use swreq_text::{StdSink, StdSource};
use swreq_top::run;
use swreq_watch::{Counter, Fan};

/// The status where there is no memory for the words.
const OUT_OF_MEMORY: u8 = 6;

fn main(rt: HostRuntime) -> ExitCode {
    let words = match words(&rt) {
        Ok(words) => words,
        Err(e) if e.kind() == ErrorKind::OutOfMemory => return ExitCode::from(OUT_OF_MEMORY),
        // Words that are not UTF-8 are wrong words, as no words are.
        Err(_) => Vec::new(rt.alloc()),
    };
    let mut src = StdSource::new(rt.stdin());
    let mut out = StdSink::new(rt.stdout());
    let mut watch = Fan::new(rt.alloc());
    // Where there is no memory for a counter, nothing watches.
    if let Ok(counter) = Box::new(rt.alloc(), Counter::new()) {
        let _ = watch.push(counter);
    }
    ExitCode::from(run(rt.alloc(), &words, &mut src, &mut out, &mut watch))
}

/// The words of the command line, without the name of the program.
fn words(rt: &HostRuntime) -> io::Result<Vec<String>> {
    let mut words = Vec::new(rt.alloc());
    for word in env::args(rt)?.skip(1) {
        words.push(word)?;
    }
    Ok(words)
}
