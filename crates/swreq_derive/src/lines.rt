//! Lines of derivations.
use crate::requirements::Statement;
use swreq_param::{NameId, ProtoId};
use swreq_text::Seq;

/// A rule of derivation, with what it takes from the list and the protocols.
///
/// Requirements are numbered from 1, those of a list and those of a protocol.
#[derive(Clone, Copy, Debug, PartialEq, Eq)]
pub enum DerivRule {
    Generic,
    Conf { n: u32 },
    Same { n: u32 },
    Layout { n: u32 },
    AssocName { p: ProtoId, a: NameId },
    AssocDecl { p: ProtoId, a: NameId },
    AssocBind { p: ProtoId, a: NameId },
    AssocConf { p: ProtoId, n: u32 },
    AssocSame { p: ProtoId, n: u32 },
    AssocLayout { p: ProtoId, n: u32 },
    Reflex,
    Symm,
    Trans,
    SameConf { p: ProtoId },
    SameLayout,
    SameName { p: ProtoId, a: NameId },
    SameDecl { p: ProtoId, a: NameId },
}

/// A line of a derivation: its statement, the rule that gives it, and the numbers of the earlier
/// lines from which the rule gives it.
///
/// Lines are numbered from 1.
#[derive(Debug, Drop, PartialEq, Eq)]
pub struct Line {
    pub rule: DerivRule,
    pub premises: Seq<usize>,
    pub statement: Statement,
}

/// The first line that is not an instance of its rule over earlier lines, by its number.
#[derive(Clone, Copy, Debug, PartialEq, Eq)]
pub struct BadLine {
    pub line: usize,
}
