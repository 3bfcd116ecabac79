//! Words that are read after type parameters, as lines of a derivation allow it.
//!
//! A call fails only if memory runs out. Whatever it answers, what was stated is still stated, and the table begins with the old one.
#![tactic(auto)]

mod along;
mod alphabet;
mod inheriting;
mod members;
mod putting;
mod reading;
mod telling;

pub use along::carry_bound;
pub use alphabet::Alphabet;
pub use inheriting::inherit;
pub use members::equal_member;
pub use putting::{Sides, join, put_side, replace, replace_back, turn};
pub use reading::{member_at, read_symbol, read_word};
pub use swreq_world::lexicon::ProtocolName;
pub use telling::{are_read_equal, declared_at, given_step, is_of_step};
