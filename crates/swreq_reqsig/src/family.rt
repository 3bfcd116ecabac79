//! Families of requirement signatures.
use swreq_text::Seq;

/// A family of requirement signatures: for each protocol, in written order, the numbers of its requirements that are kept, from 1,
/// ascending.
#[derive(Debug, Drop, PartialEq, Eq)]
pub struct Family {
    pub kept: Seq<Seq<u32>>,
}
