//! A token.

/// What a token is.
#[derive(Clone, Copy, Debug, PartialEq, Eq)]
pub enum TokenKind {
    /// A word that is not reserved and not `_` alone.
    Name,
    /// The reserved word at place `n` of [`RESERVED`](crate::RESERVED), counted from 0.
    Reserved { n: u32 },
    /// `_` alone.
    Underscore,
    /// The mark at place `n` of [`MARKS`](crate::MARKS), counted from 0.
    Mark { n: u32 },
}

/// A token: its kind, and where it stands in the text, from the byte `start` up to the byte `end`.
#[derive(Clone, Copy, Debug, PartialEq, Eq)]
pub struct Token {
    pub kind: TokenKind,
    pub start: u32,
    pub end: u32,
}
