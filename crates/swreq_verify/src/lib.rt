//! The second part of an input: derivations that are laid against the queries of a text, and judged by the checker of derivations alone.
#![tactic(auto)]

mod judging;
pub mod laws;
mod listing;
mod printing;
mod reading;
mod sections;
mod turns;
mod verifying;

pub use judging::Judgement;
pub use verifying::verify;
