//! A list of bytes, as a sink.

ghost use Rattle.std.specs.Prelude.{◌≡◌, [], Some};

use std::alloc::Global;
use swreq_text::{IoFailed, Sink, append_bytes};

/// All that was written. A write fails where there is no memory for what it writes.
#[derive(Drop)]
pub(crate) struct Kept {
    pub(crate) bytes: Vec<u8>,
    pub(crate) faults: u64,
}

impl Kept {
    /// Nothing was written.
    pub(crate) fn nothing(alloc: Global) -> Kept
        ensures bytes { result.bytes.items ≡ [] }
        ensures faults { result.faults ≡ 0 }
    {
        Kept {
            bytes: Vec::new(alloc),
            faults: 0,
        }
    }
}

impl Sink for Kept {
    ghost taken = { λ s. Some s.bytes.items };

    ghost faults = { λ s. s.faults };

    fn write(&mut self, piece: &[u8]) -> Result<usize, IoFailed> {
        match append_bytes(&mut self.bytes, piece) {
            Ok(()) => Ok(piece.len()),
            Err(_) => {
                self.faults = self.faults.saturating_add(1);
                Err(IoFailed)
            }
        }
    }
}
