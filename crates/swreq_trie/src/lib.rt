//! Left sides of rules by their symbols: the shortest one that begins at a place, and the places of two that overlap.
#![tactic(auto)]

mod chains;
mod edges;
mod ends;
mod found;
mod lengths;
mod ordered;
mod overlaps;
mod spots;
mod trie;
mod walk;

pub use found::Found;
pub use trie::{Entry, Trie};
