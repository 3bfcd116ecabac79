//! Watchers that count what they are told. One of them runs out of memory.
ghost use Rattle.std.specs.Prelude.{◌<◌};
ghost use Rattle.swreq_watch.specs.Told.{untold};

use std::alloc::{AllocError, Global};
use std::cell::Cell;
use std::rc::Rc;
use swreq_watch::{Event, Watch};

/// A watcher that counts what it is told into a cell, and has memory for `room` events.
#[derive(Drop)]
pub struct Tally {
    count: Rc<Cell<u32>>,
    room: u32,
}

impl Watch for Tally {
    ghost told = { λ _. untold };

    fn tell(&mut self, _event: &Event) -> Result<(), AllocError> {
        let count = self.count.get();
        if count < self.room {
            self.count.set(count + 1);
            Ok(())
        } else {
            Err(AllocError)
        }
    }
}

/// A count for each of three watchers.
pub fn counts(alloc: Global) -> Result<[Rc<Cell<u32>>; 3], AllocError> {
    Ok([
        Rc::new(alloc, Cell::new(0))?,
        Rc::new(alloc, Cell::new(0))?,
        Rc::new(alloc, Cell::new(0))?,
    ])
}

/// The watcher that counts into the cell at this place. The second of the three has memory for two events.
pub fn tally_at(counts: &[Rc<Cell<u32>>; 3], place: usize) -> Result<Tally, AllocError>
    requires { place < 3 }
{
    let room = if place == 1 { 2 } else { 1000 };
    let count = counts[place].clone()?;
    Ok(Tally { count, room })
}
