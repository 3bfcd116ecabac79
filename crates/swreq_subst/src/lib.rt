//! Calls of signatures: with types in place of the callee's generic parameters, which of its requirements fail.
#![tactic(auto)]

mod arguments;
mod calls;
mod failures;
pub mod laws;
mod line;
mod refusals;
mod resolving;
mod types;
mod words;

pub use calls::Call;
pub use failures::failing;
pub use line::call_text;
pub use resolving::resolve_calls;
