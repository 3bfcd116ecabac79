// What a text requires and asks, over the ids of a table of type parameters.
use swreq_lexicon::derive::Requirement;
use swreq_param::TermId;

/// A signature, that is a struct or a function, by its place among those of the text in written order, from 0. A struct
/// stands before its functions.
#[derive(Clone, Copy, Debug, PartialEq, Eq, PartialOrd, Ord, Hash)]
pub struct FuncId {
    pub place: u32,
}

/// A written requirement with the offsets in bytes of its sides in the text. A conformance or a layout has one side, and then
/// both are that of this side.
#[derive(Clone, Copy, Debug, PartialEq, Eq)]
pub struct Written {
    pub requirement: Requirement,
    pub left_at: u32,
    pub right_at: u32,
}

/// What is asked of a signature: its minimised signature, the reduced type of a type parameter, or whether a requirement is derivable.
#[derive(Clone, Copy, Debug, PartialEq, Eq)]
pub enum Asks {
    Signature,
    Reduced(TermId),
    Requirement(Requirement),
}

/// A query on the signature `f`.
#[derive(Clone, Copy, Debug, PartialEq, Eq)]
pub struct Query {
    pub f: FuncId,
    pub asks: Asks,
}
