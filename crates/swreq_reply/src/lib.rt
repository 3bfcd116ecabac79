//! What a command answers of an input, and with which status.
#![tactic(auto)]

mod commands;
mod finishing;
pub mod laws;
mod outcome;
mod printing;
mod refusal;
mod replying;
mod request;
mod stages;

pub use outcome::Outcome;
pub use replying::reply;
