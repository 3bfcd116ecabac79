//! Requirements and statements over the ids of a table of type parameters.
use swreq_param::{ProtoId, TermId};

/// A requirement between type parameters of a table: `[T : P]`, `[T : AnyObject]` or `[T == U]`.
#[derive(Clone, Copy, Debug, PartialEq, Eq)]
pub enum Requirement {
    Conf { subject: TermId, proto: ProtoId },
    Layout { subject: TermId },
    Same { left: TermId, right: TermId },
}

/// A statement: that a type parameter of a table is valid, or a requirement.
#[derive(Clone, Copy, Debug, PartialEq, Eq)]
pub enum Statement {
    Valid { t: TermId },
    Holds { r: Requirement },
}
