//! Grammars as data, what their texts stand for, where other texts are refused, and how to read them with one token
//! ahead.
#![tactic(auto)]

mod laws;
mod repetition;
mod stop;
mod token;

pub use laws::{Language, one_refused_token, one_value, refusals_are_read, texts_are_read};
pub use repetition::{Part, at_most, many};
pub use stop::Stop;
pub use token::Token;
