//! The program over any source and sink.
#![tactic(auto)]

pub mod laws;
mod program;

pub use program::run;
