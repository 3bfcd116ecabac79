//! What the names of signatures and of their generic parameters refer to.

/// A signature of a text. Structs, the functions at the top, and the functions of each struct are numbered in written
/// order, each kind from 0.
#[derive(Clone, Copy, Debug, PartialEq, Eq)]
pub enum Signature {
    /// A struct, by its number.
    Struct(usize),
    /// A function at the top, by its number.
    Function(usize),
    /// A function of a struct, by the number of the struct and by its own.
    Nested { outer: usize, function: usize },
}

/// A generic parameter of a signature, by its place in written order, from 0.
#[derive(Clone, Copy, Debug, PartialEq, Eq)]
pub enum Param {
    /// A generic parameter of the struct around a function.
    Outer(usize),
    /// A generic parameter of the signature's own.
    Own(usize),
}
