use swreq_derive::param::{NameId, ProtoId};

/// A protocol with a name: an associated type `[P]A`, where P declares A, or a member symbol
/// `[P:A]`, where A is a member name of P.
#[derive(Clone, Copy, Debug, PartialEq, Eq)]
pub struct ProtocolName {
    pub proto: ProtoId,
    pub name: NameId,
}
