//! Symbols, words and their order, and a table in which equal words have equal ids.
#![tactic(auto)]

pub mod laws;
mod symbols;
mod table;
mod words;

pub use symbols::Symbol;
pub use table::{WordId, WordTable};
pub use words::{Word, are_same, compare};
