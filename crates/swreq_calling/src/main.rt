//! A worked caller of the library. It reads a text from the standard input, and prints to each of its queries for a requirement `no`, or
//! `yes` with the lines of a derivation.
#![tactic(auto)]

mod asking;
mod failing;

use crate::asking::answers;
use std::process::ExitCode;
use swreq_text::{StdSink, StdSource, write_all};

fn main(rt: HostRuntime) -> ExitCode {
    let mut out = StdSink::new(rt.stdout());
    match answers(rt.alloc(), &mut StdSource::new(rt.stdin())) {
        Ok(text) => match write_all(&mut out, &text) {
            Ok(()) => ExitCode::from(0),
            Err(_) => ExitCode::from(5),
        },
        Err(failed) => ExitCode::from(failed as u8),
    }
}
