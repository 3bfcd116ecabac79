//! The watcher that keeps what it is told.

ghost use Rattle.std.specs.Prelude.{◌≡◌, [], Some};

use crate::{Event, Watch};
use std::alloc::{AllocError, Global};
use std::marker::Model;

/// A watcher that keeps the events, and tells its list.
#[derive(Drop)]
pub struct Recorder {
    events: Vec<Event>,
}

impl Model for Recorder {
    ghost use Rattle.std.specs.Prelude.{List};
    ghost use Rattle.swreq_watch.specs.declared.events.Event.{Event};

    ghost Value = { List Event };

    ghost view = { λ r. r.events.items };
}

impl Recorder {
    /// Was told nothing yet.
    pub fn new(alloc: Global) -> Recorder
        ensures { result ≡ [] }
    {
        Recorder {
            events: Vec::new(alloc),
        }
    }

    /// The events that it was told, in order.
    pub fn events(&self) -> &[Event]
        ensures { result.now ≡ self.now }
    {
        &self.events
    }
}

impl Watch for Recorder {
    ghost told = { λ r. Some r };

    fn tell(&mut self, event: &Event) -> Result<(), AllocError> {
        let copy = event.clone()?;
        self.events.push(copy)?;
        Ok(())
    }
}
