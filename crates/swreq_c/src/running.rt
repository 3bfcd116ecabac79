//! A run in memory.

ghost use Rattle.std.specs.Prelude.{List, ℕ, IfOk};
ghost use Rattle.swreq_print.specs.Names.{Text};
ghost use Rattle.swreq_c.specs.Calls.{AreWords, HasRun};

use crate::sink::Kept;
use crate::source::Handed;
use crate::words::words_of;
use std::alloc::{AllocError, Global};
use swreq_top::run;
use swreq_watch::Quiet;

// The status of a run that failed to write.
const WRITE_FAULT: u8 = 5;

/// The status of a run, and what it has printed.
#[derive(Drop)]
pub(crate) struct Ran {
    pub(crate) status: u8,
    pub(crate) bytes: Vec<u8>,
}

/// Does what the words say, over the text.
pub(crate) fn run_over(alloc: Global, words: &[u8], text: &[u8]) -> Result<Ran, AllocError>
    ensures { IfOk result (λ r. (said : List Text) → AreWords words.now said
        → HasRun said text.now r.status r.bytes.items) }
{
    let words = words_of(alloc, words)?;
    let mut source = Handed { left: text };
    let mut sink = Kept::nothing(alloc);
    let status = run(alloc, &words, &mut source, &mut sink, &mut Quiet);
    // A write fails only if memory runs out.
    if status == WRITE_FAULT {
        return Err(AllocError);
    }
    Ok(Ran {
        status,
        bytes: sink.bytes,
    })
}
