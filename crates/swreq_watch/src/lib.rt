//! What completions tell, and watchers that are told it.
#![tactic(auto)]

mod counting;
mod events;
mod fan;
pub mod laws;
mod recording;
mod watching;

pub use counting::Counter;
pub use events::Event;
pub use fan::Fan;
pub use recording::Recorder;
pub use watching::{Quiet, Watch};
