//! The symbols of words.

/// A symbol of a word. Symbols go by kind, in the order in which the kinds stand here, and within a kind by number.
#[derive(Clone, Copy, Debug, PartialEq, Eq, PartialOrd, Ord, Hash)]
pub enum Symbol {
    /// A protocol, by its rank.
    Proto(u32),
    /// A member of a protocol, by the rank of the two together.
    Member(u64),
    /// A generic parameter, by depth and index.
    Param(u32, u32),
    /// A name, by its rank.
    Name(u32),
    /// The layout `AnyObject`.
    Layout,
}
