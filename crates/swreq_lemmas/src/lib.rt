//! Lemmas on lists, numbers and orders, which know nothing of words or types.
#![tactic(auto)]

pub mod laws;
