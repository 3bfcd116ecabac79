//! Canonical requirements, generators and the minimised list of a list of requirements, by derivations alone.
#![tactic(auto)]

pub mod laws;
pub mod worked;
