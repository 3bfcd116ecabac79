//! Readers and writers that fail, and sequences.
#![tactic(auto)]

#[cfg(test)]
mod streams;
