//! The events of a completion.

ghost use Rattle.std.specs.Prelude.{◌≡◌};

use std::alloc::AllocError;
use swreq_rule::Rule;

/// What a completion tells of itself, in the order in which it happens.
#[derive(Debug, Drop)]
pub enum Event {
    /// It starts over a base of this many rules.
    Start { base: u32 },
    /// A rule is born.
    Born { rule: Rule },
}

impl Clone for Event {
    ghost is_clone = { λ event copy. copy ≡ event };

    fn clone(&self) -> Result<Event, AllocError> {
        match self {
            Event::Start { base } => Ok(Event::Start { base: *base }),
            Event::Born { rule } => {
                let rule = rule.clone()?;
                Ok(Event::Born { rule })
            }
        }
    }
}
