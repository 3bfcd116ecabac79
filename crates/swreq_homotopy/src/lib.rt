//! Rules that a loop shows to be redundant, with evidence, and the loops of pairs of rules.
#![tactic(auto)]

mod around;
pub mod laws;
mod loops;
mod showing;

pub use around::Evidence;
pub use loops::loop_of_pair;
pub use showing::redundant;
