//! Tokens as a grammar sees them.

/// A token: the terminal symbol of which it is one, and its slice of the text, from `start` up to and without `end`,
/// in bytes.
#[derive(Clone, Copy, Drop)]
pub struct Token<T> {
    pub terminal: T,
    pub start: u32,
    pub end: u32,
}
