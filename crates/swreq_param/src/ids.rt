/// A name of an associated type or of a member, by its rank among the names of the text.
///
/// Ranks go by the bytes of the names, from 0.
#[derive(Clone, Copy, Debug, PartialEq, Eq, PartialOrd, Ord, Hash)]
pub struct NameId {
    pub rank: u32,
}

/// A protocol, by its rank among the protocols of the text.
///
/// Ranks go by the bytes of the protocols' names, from 0.
#[derive(Clone, Copy, Debug, PartialEq, Eq, PartialOrd, Ord, Hash)]
pub struct ProtoId {
    pub rank: u32,
}

/// An associated type, that is a protocol with a name that it declares, by its rank among those of
/// the text.
///
/// Ranks go by the bytes of the name. Among associated types of one name the roots come first,
/// which are those whose protocol inherits none that declares the name, and then they go by the
/// bytes of the protocol's name.
#[derive(Clone, Copy, Debug, PartialEq, Eq, PartialOrd, Ord, Hash)]
pub struct AssocId {
    pub rank: u32,
}

/// A generic parameter `τ_d_i`, by its depth d and its index i, each counted from 0.
///
/// `Self` of a protocol is `τ_0_0`.
#[derive(Clone, Copy, Debug, PartialEq, Eq, PartialOrd, Ord, Hash)]
pub struct ParamId {
    pub depth: u32,
    pub index: u32,
}

/// The last step of a member of a type parameter.
///
/// A bound step `[P]A` names an associated type of a protocol, an unbound one a name alone. Bound
/// steps come before unbound ones.
#[derive(Clone, Copy, Debug, PartialEq, Eq, PartialOrd, Ord, Hash)]
pub enum Step {
    Bound(AssocId),
    Name(NameId),
}

/// A type parameter of a table, by its place there, counted from 0.
#[derive(Clone, Copy, Debug, PartialEq, Eq, PartialOrd, Ord, Hash)]
pub struct TermId {
    pub place: usize,
}
