use std::alloc::{AllocError, Global};
use std::cmp::Ordering;
use std::io::{self, ErrorKind, Read, Write};
use swreq_text::{ReadErr, Seq, StdSink, StdSource, read_all, write_all};

/// A reader and a writer of one byte a call, of which the third call fails. A clogged one never gets out what it takes.
#[derive(Drop)]
struct Shaky {
    calls: u32,
    clogged: bool,
}

impl Read for Shaky {
    fn read(&mut self, buf: &mut [u8]) -> io::Result<usize> {
        self.calls = self.calls.saturating_add(1);
        if self.calls == 3 {
            return Err(ErrorKind::TimedOut.into());
        }
        let n = buf.len().min(1);
        buf[..n].fill(b'x');
        Ok(n)
    }
}

impl Write for Shaky {
    fn write(&mut self, buf: &[u8]) -> io::Result<usize> {
        self.calls = self.calls.saturating_add(1);
        if self.calls == 3 {
            return Err(ErrorKind::TimedOut.into());
        }
        Ok(buf.len().min(1))
    }

    fn flush(&mut self) -> io::Result<()> {
        if self.clogged {
            return Err(ErrorKind::BrokenPipe.into());
        }
        Ok(())
    }
}

fn one_byte(clogged: bool) -> Shaky {
    Shaky { calls: 0, clogged }
}

/// Whether the first reading is a fault, and the next one goes on.
fn reads_on(alloc: Global) -> bool {
    let mut src = StdSource::new(one_byte(false));
    matches!(read_all(alloc, &mut src, 9), Err(ReadErr::Fault))
        && matches!(read_all(alloc, &mut src, 9), Err(ReadErr::TooLarge))
}

/// Whether the first writing is a fault, and the next one goes on.
fn writes_on() -> bool {
    let mut out = StdSink::new(one_byte(false));
    write_all(&mut out, b"yes\n").is_err() && write_all(&mut out, b"yes\n").is_ok()
}

/// Whether what never gets out is a fault.
fn stays_in() -> bool {
    let mut clogged = StdSink::new(one_byte(true));
    write_all(&mut clogged, b"ye").is_err()
}

#[test]
fn an_error_is_a_fault_and_the_next_call_goes_on(rt: HostRuntime) {
    assert!(rt; reads_on(rt.alloc()));
    assert!(rt; writes_on());
    assert!(rt; stays_in());
}

/// The sequence of 1 and another number.
fn seq_of(alloc: Global, last: u32) -> Result<Seq<u32>, AllocError> {
    Ok(Seq::new(vec![in alloc; 1u32, last]?))
}

/// Whether both differ, and the first one is less.
fn is_less(first: &Seq<u32>, second: &Seq<u32>) -> bool {
    first != second && first.cmp(second) == Ordering::Less
}

#[test]
fn sequences_compare_item_by_item(rt: HostRuntime) -> Result<(), AllocError> {
    let first = seq_of(rt.alloc(), 2)?;
    assert!(rt; is_less(&first, &seq_of(rt.alloc(), 3)?));
    assert!(rt; first.into_vec().as_slice() == [1, 2].as_slice());
    Ok(())
}
