// A reader and a writer of std as a source and a sink.
ghost use Rattle.std.specs.{Prelude.{◌≡◌, ◌<◌, ◌≤◌, length, take, is_ok, if◌then◌else◌, IfOk, IfSome, OnErr, None, Some}, Io.KnownBytes.{Appends, Consumes, IsAtEnd, Keeps}};
ghost use Rattle.swreq_text.specs.Faults.{HasRisen, one_more};

use crate::{IoFailed, Sink, Source};
use std::io::{Read, Write};
use std::marker::Model;

/// A reader as a source, with a count of its errors. It tells what the reader tells, and of the standard input nothing.
///
/// When a read fails is not promised, since no contract can say what the call on the reader answered: tests alone show that it
/// is where the reader fails.
#[derive(Drop)]
pub struct StdSource<R: Read> {
    inner: R,
    faults: u64,
}

impl<R: Read> Model for StdSource<R> {
    ghost use Rattle.swreq_text.specs.Counted.{Counted};

    ghost Value = { Counted R };

    ghost view = { λ s. record { inner = s.inner; faults = s.faults } };
}

impl<R: Read> StdSource<R> {
    /// The reader, with no error counted yet.
    pub fn new(inner: R) -> Self
        ensures { result ≡ record { inner = inner; faults = 0 } }
    {
        StdSource { inner, faults: 0 }
    }
}

impl<R: Read> Source for StdSource<R> {
    ghost left = { λ s. R.remaining s.inner };

    ghost faults = { λ s. s.faults };

    fn read(&mut self, buf: &mut [u8]) -> Result<usize, IoFailed>
        ensures count { IfOk result (λ n. n ≤ length buf.new) }
        ensures next { IfOk result (λ n.
            Consumes (R.remaining self.old.inner) (R.remaining self.new.inner) (take n buf.new)) }
        ensures end { result ≡ Ok 0 → 0 < length buf.new → IsAtEnd (R.remaining self.new.inner) }
        ensures kept { OnErr result
            (Keeps (R.remaining self.old.inner) (R.remaining self.new.inner)) }
        ensures counted { self.new.faults ≡
            (if is_ok result then self.old.faults else one_more self.old.faults) }
        ensures steady { self.old.faults ≤ self.new.faults }
    {
        match self.inner.read(buf) {
            Ok(n) => Ok(n),
            Err(_) => {
                self.faults = self.faults.saturating_add(1);
                Err(IoFailed)
            }
        }
    }
}

/// A writer as a sink, flushed at each write, with a count of its errors. It hands on what it is given; as a sink it tells
/// nothing of it, since a flush may fail after bytes were taken.
///
/// When a write fails, and that the flush is called, is not promised, since no contract can say what the calls on the writer
/// answered: tests alone show it.
#[derive(Drop)]
pub struct StdSink<W: Write> {
    inner: W,
    faults: u64,
}

impl<W: Write> Model for StdSink<W> {
    ghost use Rattle.swreq_text.specs.Counted.{Counted};

    ghost Value = { Counted W };

    ghost view = { λ s. record { inner = s.inner; faults = s.faults } };
}

impl<W: Write> StdSink<W> {
    /// The writer, with no error counted yet.
    pub fn new(inner: W) -> Self
        ensures { result ≡ record { inner = inner; faults = 0 } }
    {
        StdSink { inner, faults: 0 }
    }
}

impl<W: Write> Sink for StdSink<W> {
    ghost taken = { λ _. None };

    ghost faults = { λ s. s.faults };

    fn write(&mut self, piece: &[u8]) -> Result<usize, IoFailed>
        ensures count { IfOk result (λ n. n ≤ length piece.now) }
        ensures some { result ≡ Ok 0 → length piece.now ≡ 0 }
        ensures through { IfOk result (λ n.
            Appends (W.contents self.old.inner) (W.contents self.new.inner) (take n piece.now)) }
        ensures counted { self.new.faults ≡
            (if is_ok result then self.old.faults else one_more self.old.faults) }
        ensures steady { self.old.faults ≤ self.new.faults }
    {
        match write_through(&mut self.inner, piece) {
            Some(n) => Ok(n),
            None => {
                self.faults = self.faults.saturating_add(1);
                Err(IoFailed)
            }
        }
    }
}

/// Writes and flushes. None where either fails, or nothing was taken of a piece that is not empty.
fn write_through<W: Write>(inner: &mut W, piece: &[u8]) -> Option<usize>
    ensures count { IfSome result (λ n. n ≤ length piece.now) }
    ensures some { result ≡ Some 0 → length piece.now ≡ 0 }
    ensures through { IfSome result (λ n.
        Appends (W.contents inner.old) (W.contents inner.new) (take n piece.now)) }
{
    let n = inner.write(piece).ok()?;
    inner.flush().ok()?;
    if n == 0 && !piece.is_empty() {
        None
    } else {
        Some(n)
    }
}
