//! The watcher that tells others.

ghost use Rattle.std.specs.Prelude.{◌≡◌, ◌^◌, ◌<◌, [], ◌∷◌, OnErr, OnOk, vec_len};
ghost use Rattle.swreq_watch.specs.Told.{GrewBy};

use crate::{Event, Watch};
use std::alloc::{AllocError, Global};

/// A watcher that tells other watchers, its members, which it owns. It does not tell a list of its own.
#[derive(Drop)]
pub struct Fan {
    members: Vec<Box<dyn Watch>>,
    ghost few: { vec_len members < 2 ^ 32 },
}

impl Fan {
    ghost use Rattle.std.specs.Prelude.{◌≡◌, ◌-◌, ◌^◌, ◌<◌, [], ◌∷◌, ◌++◌, ◌↔◌, length, take, IsTrue, OnOk, OnErr, IfErr};
    ghost use Rattle.swreq_watch.specs.Fan.{members};

    /// Has no members yet.
    pub fn new(alloc: Global) -> Fan
        ensures { members result ≡ [] }
    {
        Fan {
            members: Vec::new(alloc),
        }
    }

    /// How many members there are.
    pub fn len(&self) -> u32
        ensures { result ≡ length (members self.now) }
    {
        self.members.len() as u32
    }

    /// Adds the watcher as the last member. If memory runs out, Err hands it back, and the members are as before.
    pub fn push(&mut self, watcher: Box<dyn Watch>) -> Result<(), Box<dyn Watch>>
        requires { length (members self.old) < 2 ^ 32 - 1 }
        ensures ok { OnOk result (members self.new ≡ members self.old ++ watcher ∷ []) }
        ensures err { OnErr result (members self.new ≡ members self.old) }
        ensures back { IfErr result (λ back. back ≡ watcher) }
    {
        match self.members.push(watcher) {
            Ok(()) => Ok(()),
            Err(failed) => Err(failed.value),
        }
    }

    /// Drops the last member. False if and only if there is none.
    pub fn drop_last(&mut self) -> bool
        ensures some { IsTrue result ↔ (0 < length (members self.old)) }
        ensures left { members self.new ≡ take (length (members self.old) - 1) (members self.old) }
    {
        self.members.pop().is_some()
    }
}

impl Watch for Fan {
    ghost use Rattle.std.specs.Prelude.{[], ◌∷◌, map, OnErr, OnOk};
    ghost use Rattle.swreq_watch.specs.{Fan.{members}, Told.{EachGrewBy, GrewUpToOne, untold}};

    ghost told = { λ _. untold };

    /// Tells each member in order, up to the first that runs out of memory.
    fn tell(&mut self, event: &Event) -> Result<(), AllocError>
        ensures each { OnOk result (EachGrewBy (map told (members self.old))
            (map told (members self.new)) (event.now ∷ [])) }
        ensures up_to_one { OnErr result (GrewUpToOne (map told (members self.old))
            (map told (members self.new)) (event.now ∷ [])) }
    {
        for place in 0..self.members.len() {
            tell_member(&mut self.members[place], event)?;
        }
        Ok(())
    }
}

// Tells one watcher.
fn tell_member(watcher: &mut Box<dyn Watch>, event: &Event) -> Result<(), AllocError>
    ensures ok { OnOk result (GrewBy (told watcher.old) (told watcher.new) (event.now ∷ [])) }
    ensures err { OnErr result (told watcher.new ≡ told watcher.old) }
{
    watcher.tell(event)
}
