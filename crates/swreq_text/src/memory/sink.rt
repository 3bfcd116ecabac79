// Memory as a sink.
ghost use Rattle.std.specs.Prelude.{◌≡◌, ◌⊎◌, ◌+◌, ◌-◌, ◌≤◌, ◌↔◌, [], ◌++◌, min, length, take, Some, None, IsErr, IfOk, OnErr};
ghost use Rattle.swreq_text.specs.{Faults.{greatest_count, one_more}, Memory.{FailsNext, IsFullFor}};

use super::source::names;
use crate::{IoFailed, Sink};
use std::alloc::{AllocError, Global};
use std::marker::Model;

/// Keeps what it takes, in pieces, with writes that fail at chosen calls and where no room is left.
#[derive(Drop)]
pub struct MemSink {
    bytes: Vec<u8>,
    room: u32,
    piece: u32,
    fails: Vec<u32>,
    calls: u64,
    faults: u64,
}

impl Model for MemSink {
    ghost use Rattle.std.specs.Prelude.{◌≤◌, length, vec_capacity};
    ghost use Rattle.swreq_text.specs.Memory.{SinkState};

    ghost Value = { SinkState };

    ghost view = { λ s. record {
      taken = s.bytes.items;
      room = s.room;
      piece = s.piece;
      fails = s.fails.items;
      calls = s.calls;
      faults = s.faults;
    } };

    ghost invariant = { λ s.
        (length s.bytes.items ≤ s.room) × (s.room ≤ vec_capacity s.bytes) × (1 ≤ s.piece) };
}

impl MemSink {
    /// Takes at most `room` bytes in all and `piece` in one call, and fails at the calls whose numbers, from 1, stand
    /// in `fails`. The room is allocated here, so no write can run out of memory.
    ///
    /// Calls after number `u32::MAX` do not fail by the list.
    pub fn new(alloc: Global, room: u32, piece: u32, fails: Vec<u32>) -> Result<Self, AllocError>
        requires { 1 ≤ piece }
        ensures { IfOk result (λ s. s ≡ record {
          taken = [];
          room = room;
          piece = piece;
          fails = fails.items;
          calls = 0;
          faults = 0;
        }) }
    {
        let bytes = Vec::with_capacity(alloc, room as usize)?;
        Ok(MemSink {
            bytes,
            room,
            piece,
            fails,
            calls: 0,
            faults: 0,
        })
    }

    /// The bytes taken so far.
    pub fn bytes(&self) -> &[u8]
        ensures { result.now ≡ self.now.taken }
    {
        &self.bytes
    }
}

impl Sink for MemSink {
    ghost taken = { λ s. Some s.taken };

    ghost faults = { λ s. s.faults };

    fn write(&mut self, piece: &[u8]) -> Result<usize, IoFailed>
        ensures fails { IsErr result ↔
            (FailsNext self.old.fails self.old.calls ⊎ IsFullFor self.old piece.now) }
        ensures count { IfOk result (λ n.
            n
            ≡ min (length piece.now) (min self.old.piece (self.old.room - length self.old.taken))) }
        ensures some { result ≡ Ok 0 → length piece.now ≡ 0 }

        // What is taken, and the two counts.
        ensures appended { IfOk result (λ n.
            self.new ≡ record self.old {
              taken = self.old.taken ++ take n piece.now;
              calls = one_more self.old.calls;
            }) }
        ensures failed { OnErr result (
            self.new ≡ record self.old {
              calls = one_more self.old.calls;
              faults = one_more self.old.faults;
            }) }
        ensures steady { self.old.faults ≤ self.new.faults }
    {
        self.calls = self.calls.saturating_add(1);
        let free = self.room as usize - self.bytes.len();
        if names(&self.fails, self.calls) || (free == 0 && !piece.is_empty()) {
            self.faults = self.faults.saturating_add(1);
            return Err(IoFailed);
        }
        let n = piece.len().min(self.piece as usize).min(free);
        self.bytes.extend_from_slice(&piece[..n]).unwrap();
        Ok(n)
    }
}

/// Takes every piece whole, and keeps the number of bytes alone, up to `u64::MAX`.
#[derive(Drop)]
pub struct CountSink {
    count: u64,
}

impl Model for CountSink {
    ghost use Rattle.std.specs.Prelude.{ℕ};

    ghost Value = { ℕ };

    ghost view = { λ s. s.count };
}

impl CountSink {
    /// Has taken nothing.
    pub fn new() -> Self
        ensures { result ≡ 0 }
    {
        CountSink { count: 0 }
    }

    /// How many bytes were taken, up to `u64::MAX`.
    pub fn count(&self) -> u64
        ensures { result ≡ self.now }
    {
        self.count
    }
}

impl Sink for CountSink {
    ghost taken = { λ _. None };

    ghost faults = { λ _. 0 };

    fn write(&mut self, piece: &[u8]) -> Result<usize, IoFailed>
        ensures whole { result ≡ Ok (length piece.now) }
        ensures counted { self.new ≡ min (self.old + length piece.now) greatest_count }
    {
        self.count = self.count.saturating_add(piece.len() as u64);
        Ok(piece.len())
    }
}
