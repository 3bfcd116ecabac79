//! The bytes of a caller, as a source.

ghost use Rattle.std.specs.Prelude.{Some};

use swreq_text::{IoFailed, Source};

/// What is left of bytes that a caller hands in. No read of them fails.
#[derive(Drop)]
pub(crate) struct Handed<'a> {
    pub(crate) left: &'a [u8],
}

impl Source for Handed<'_> {
    ghost left = { λ s. Some s.left.now };

    ghost faults = { λ _. 0 };

    fn read(&mut self, buf: &mut [u8]) -> Result<usize, IoFailed> {
        let count = buf.len().min(self.left.len());
        buf[..count].copy_from_slice(&self.left[..count]);
        self.left = &self.left[count..];
        Ok(count)
    }
}
