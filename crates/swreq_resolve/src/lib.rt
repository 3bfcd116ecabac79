//! Whether the names of a text resolve, and the first that is refused.
#![tactic(auto)]

mod check;
mod cycles;
mod items;
pub mod laws;
mod protocols;
mod queries;
mod refusal;
mod resolve;
mod signatures;

pub use refusal::{Fault, NameErr, Refusal, error_of};
pub use resolve::{resolve_names, resolve_type};
