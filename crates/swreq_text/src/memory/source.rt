// Bytes in memory as a source.
ghost use Rattle.std.specs.Prelude.{◌≡◌, ◌<◌, ◌≤◌, ◌↔◌, [], min, length, take, drop, Some, Contains, IsTrue, IsErr, IsOk, IfOk, OnErr};
ghost use Rattle.swreq_text.specs.{Faults.{one_more}, Memory.{FailsNext}};

use crate::{IoFailed, Source};
use std::marker::Model;

/// Bytes in memory, which come in pieces, with reads that fail at chosen calls.
#[derive(Drop)]
pub struct MemSource {
    bytes: Vec<u8>,
    at: usize,
    piece: u32,
    fails: Vec<u32>,
    calls: u64,
    faults: u64,
}

impl Model for MemSource {
    ghost use Rattle.std.specs.Prelude.{◌≤◌, length, drop};
    ghost use Rattle.swreq_text.specs.Memory.{SourceState};

    ghost Value = { SourceState };

    ghost view = { λ s. record {
      left = drop s.at s.bytes.items;
      piece = s.piece;
      fails = s.fails.items;
      calls = s.calls;
      faults = s.faults;
    } };

    ghost invariant = { λ s. (s.at ≤ length s.bytes.items) × (1 ≤ s.piece) };
}

impl MemSource {
    /// Gives the bytes, at most `piece` in one call, and fails at the calls whose numbers, from 1, stand in `fails`.
    ///
    /// Calls after number `u32::MAX` do not fail.
    pub fn new(bytes: Vec<u8>, piece: u32, fails: Vec<u32>) -> Self
        requires { 1 ≤ piece }
        ensures { result ≡ record {
          left = bytes.items;
          piece = piece;
          fails = fails.items;
          calls = 0;
          faults = 0;
        } }
    {
        MemSource {
            bytes,
            at: 0,
            piece,
            fails,
            calls: 0,
            faults: 0,
        }
    }
}

impl Source for MemSource {
    ghost left = { λ s. Some s.left };

    ghost faults = { λ s. s.faults };

    fn read(&mut self, buf: &mut [u8]) -> Result<usize, IoFailed>
        ensures fails { IsErr result ↔ FailsNext self.old.fails self.old.calls }
        ensures count { IfOk result (λ n.
            n ≡ min (length buf.new) (min self.old.piece (length self.old.left))) }
        ensures next { IfOk result (λ n. take n buf.new ≡ take n self.old.left) }
        ensures end { result ≡ Ok 0 → 0 < length buf.new → self.old.left ≡ [] }

        // What is left, and the two counts.
        ensures given { IfOk result (λ n.
            self.new
            ≡ record self.old { left = drop n self.old.left; calls = one_more self.old.calls }) }
        ensures failed { OnErr result (
            self.new ≡ record self.old {
              calls = one_more self.old.calls;
              faults = one_more self.old.faults;
            }) }
        ensures steady { self.old.faults ≤ self.new.faults }
    {
        self.calls = self.calls.saturating_add(1);
        if names(&self.fails, self.calls) {
            self.faults = self.faults.saturating_add(1);
            return Err(IoFailed);
        }
        let n = give(&self.bytes[self.at..], self.piece as usize, buf);
        self.at += n;
        Ok(n)
    }
}

/// Whether the call with this number is one of those that fail.
pub(super) fn names(fails: &[u32], call: u64) -> bool
    ensures { IsTrue result ↔ Contains fails.now call }
{
    fails.iter().any(|n| u64::from(*n) == call)
}

/// Copies the front of `left` to the front of `buf`, at most `piece` bytes, and says how many.
fn give(left: &[u8], piece: usize, buf: &mut [u8]) -> usize
    ensures count { result ≡ min (length buf.new) (min piece (length left.now)) }
    ensures next { take result buf.new ≡ take result left.now }
{
    let n = buf.len().min(piece).min(left.len());
    buf[..n].copy_from_slice(&left[..n]);
    n
}

/// Bytes in memory, of which no read fails.
#[derive(Drop)]
pub struct SureSource {
    bytes: Vec<u8>,
    at: usize,
}

impl Model for SureSource {
    ghost use Rattle.std.specs.Prelude.{List, ℕ, ◌≤◌, length, drop};

    ghost Value = { List ℕ };

    ghost view = { λ s. drop s.at s.bytes.items };

    ghost invariant = { λ s. s.at ≤ length s.bytes.items };
}

impl SureSource {
    /// Gives the bytes. Each call fills the buffer as far as there are bytes.
    pub fn new(bytes: Vec<u8>) -> Self
        ensures { result ≡ bytes.items }
    {
        SureSource { bytes, at: 0 }
    }
}

impl Source for SureSource {
    ghost left = { λ s. Some s };

    ghost faults = { λ _. 0 };

    fn read(&mut self, buf: &mut [u8]) -> Result<usize, IoFailed>
        ensures sure { IsOk result }
        ensures count { IfOk result (λ n. n ≡ min (length buf.new) (length self.old)) }
        ensures next { IfOk result (λ n. take n buf.new ≡ take n self.old) }
        ensures given { IfOk result (λ n. self.new ≡ drop n self.old) }
    {
        let left = &self.bytes[self.at..];
        let n = give(left, left.len(), buf);
        self.at += n;
        Ok(n)
    }
}
