//! The tokens of a source text, or the first place where none can be read.
#![tactic(auto)]

mod characters;
mod comments;
mod front;
pub mod laws;
mod lexer;
mod marks;
mod refusal;
mod token;
mod words;

pub use lexer::{TEXT_LIMIT, tokens, tokens_from};
pub use marks::MARKS;
pub use refusal::LexErr;
pub use token::{Token, TokenKind};
pub use words::RESERVED;
