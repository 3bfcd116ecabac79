//! Which watchers tell their list, over the definitions alone.

ghost use Rattle.std.specs.Prelude.{◌≡◌, ℕ, List, Some};
ghost use Rattle.swreq_watch.specs.{declared.events.Event.{Event}, declared.watching.Quiet.{Quiet}, Told.{untold}};

use crate::{Counter, Fan, Quiet, Recorder, Watch};

/// A recorder tells all events that it keeps. A counter and a quiet watcher do not tell their list.
pub fn recorders_alone_tell()
    ensures recorder { (events : List Event) → ⟦<Recorder as Watch>⟧.told events ≡ Some events }
    ensures counter { (count : ℕ) → ⟦<Counter as Watch>⟧.told count ≡ untold }
    ensures quiet { (watcher : Quiet) → ⟦<Quiet as Watch>⟧.told watcher ≡ untold }
{}

/// A fan does not tell a list of its own.
pub fn fans_do_not_tell(_fan: &Fan)
    ensures { ⟦<Fan as Watch>⟧.told _fan.now ≡ untold }
{}
