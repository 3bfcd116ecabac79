//! Rules that go down in the order of words, lists of rules, reduction by them, and where two words overlap.
#![tactic(auto)]

mod equation;
pub mod laws;
mod list;
mod overlap;
mod reduction;
mod rules;

pub use equation::oriented;
pub use list::RuleList;
pub use overlap::{contains, overlaps};
pub use reduction::{Redex, first_redex, take_step, take_step_of};
pub use rules::{Birth, Place, Rule};

/// What the crates above use of `swreq_word`.
pub mod word {
    pub use swreq_word::{Symbol, Word, WordTable, are_same, compare};
}
