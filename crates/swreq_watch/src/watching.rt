//! The trait of watchers, and the watcher that does nothing.

ghost use Rattle.std.specs.Prelude.{◌≡◌, List, ◌∷◌, [], Option, Ok, OnErr, OnOk};
ghost use Rattle.swreq_watch.specs.{declared.events.Event.{Event}, Told.{GrewBy, untold}};

use crate::Event;
use std::alloc::AllocError;

/// A watcher is told the events of a completion, one by one.
///
/// It may tell the list of the events that it was told, or not, and whether it does never changes.
pub trait Watch: Drop {
    /// The events that it was told, in order, where it tells them.
    ghost told: { Self → Option (List Event) };

    /// Adds the event at the end of its list, or answers an error if memory runs out, with the list unchanged.
    fn tell(&mut self, event: &Event) -> Result<(), AllocError>
        ensures ok { OnOk result (GrewBy (told self.old) (told self.new) (event.now ∷ [])) }
        ensures err { OnErr result (told self.new ≡ told self.old) };
}

/// A watcher that does nothing. It does not tell its list, takes no memory, and never fails.
#[derive(Drop)]
pub struct Quiet;

impl Watch for Quiet {
    ghost told = { λ _. untold };

    fn tell(&mut self, _event: &Event) -> Result<(), AllocError>
        ensures never_fails { result ≡ Ok tt }
    {
        Ok(())
    }
}
