//! Derivations of what a machine answers. For each requirement that is derivable from the list of a signature there are lines by the rules
//! of derivation, and the checker of derivations accepts them by themselves.
#![tactic(auto)]

mod equations;
mod explaining;
mod history;
mod numbered;
mod stating;
mod validity;

pub use explaining::{derivation_of, explain, explain_by};
pub use history::{TextHistory, history_of, text_history_of};
