//! The generated text of a number: this many protocols, which lead to one another in a ring, a function over them, and its queries.
#![tactic(auto)]

mod generate;
mod lines;

pub use generate::text;
