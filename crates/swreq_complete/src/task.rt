//! What a completion is asked for, and the buffers in which it works.

ghost use Rattle.std.specs.Prelude.{◌≡◌, OnOk};

use crate::limit::Limits;
use std::alloc::{AllocError, Global};
use swreq_rule::word::{Symbol, Word};

/// The number of rules of the base, the equations, and the limits.
#[derive(Clone, Copy)]
pub(crate) struct Task<'a> {
    pub base: usize,
    pub given: &'a [(Word, Word)],
    pub limits: Limits,
}

/// The two sides of the moment that is settled, and room for their reduction, in buffers that are kept from one moment to the next.
#[derive(Drop)]
pub(crate) struct Sides {
    pub left: Vec<Symbol>,
    pub right: Vec<Symbol>,
    pub counts: Vec<usize>,
}

// Puts the word into the buffer, in place of what was there.
fn write(buffer: &mut Vec<Symbol>, word: &[Symbol]) -> Result<(), AllocError>
    ensures { OnOk result (buffer.new.items ≡ word.now) }
{
    buffer.clear();
    buffer.extend_from_slice(word)?;
    Ok(())
}

impl Sides {
    /// Empty buffers, which take no memory.
    pub fn new(alloc: Global) -> Sides {
        Sides {
            left: Vec::new(alloc),
            right: Vec::new(alloc),
            counts: Vec::new(alloc),
        }
    }

    /// Puts these two words into the buffers.
    pub fn set(&mut self, left: &[Symbol], right: &[Symbol]) -> Result<(), AllocError>
        ensures left { OnOk result (self.new.left.items ≡ left.now) }
        ensures right { OnOk result (self.new.right.items ≡ right.now) }
    {
        write(&mut self.left, left)?;
        write(&mut self.right, right)
    }
}
