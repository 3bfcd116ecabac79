//! Type parameters as words, equations, and the law that derivations and words correspond.
#![tactic(auto)]

pub mod laws;
pub mod worked;
