//! Paths of rewriting: steps by the rules of a list, forth and back, that can be replayed.
#![tactic(auto)]

pub mod laws;
mod paths;
mod reduction;
mod steps;

pub use paths::{Loop, Path, append_copies, compose, invert};
pub use reduction::{path_of, step_at, step_of, take_redex, take_redex_of};
pub use steps::RewriteStep;
