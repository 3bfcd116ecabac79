//! The watcher that counts the rules born.

ghost use Rattle.std.specs.Prelude.{◌≡◌, Ok};
ghost use Rattle.swreq_watch.specs.{Counted.{counted}, Told.{untold}};

use crate::{Event, Watch};
use std::alloc::AllocError;
use std::marker::Model;

/// A watcher that counts the rules born, up to the greatest u64. It does not tell its list, takes no memory, and never fails.
#[derive(Drop)]
pub struct Counter {
    count: u64,
}

impl Model for Counter {
    ghost use Rattle.std.specs.Prelude.{ℕ};

    ghost Value = { ℕ };

    ghost view = { λ c. c.count };
}

impl Counter {
    /// Has counted nothing yet.
    pub fn new() -> Counter
        ensures { result ≡ 0 }
    {
        Counter { count: 0 }
    }

    /// How many rules were born.
    pub fn born(&self) -> u64
        ensures { result ≡ self.now }
    {
        self.count
    }
}

impl Watch for Counter {
    ghost told = { λ _. untold };

    fn tell(&mut self, event: &Event) -> Result<(), AllocError>
        ensures never_fails { result ≡ Ok tt }
        ensures counts { self.new ≡ counted event.now self.old }
    {
        if let Event::Born { .. } = event {
            self.count = self.count.saturating_add(1);
        }
        Ok(())
    }
}
