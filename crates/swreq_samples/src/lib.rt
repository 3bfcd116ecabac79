//! Skeletons of texts, and watchers, for tests.
#![tactic(auto)]

mod reading;
mod tallies;

pub use reading::skeleton_of;
pub use tallies::{Tally, counts, tally_at};
