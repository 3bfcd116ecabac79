//! Over what type parameters are read.
ghost use Rattle.std.specs.Prelude.{◌≡◌, ◌↔◌, IsTrue};
ghost use Rattle.swreq_correspondence.specs.swreq_derive.Derivation.{HasParam};
ghost use Rattle.swreq_symbols.specs.Overs.{owner_of, source_over};

use swreq_world::derive::Params;
use swreq_world::param::{ParamId, ProtoId};

/// Over what a type parameter is read.
#[derive(Clone, Copy, Debug, PartialEq, Eq)]
pub enum Over {
    /// The list of a signature with these generic parameters.
    Signature(Params),
    /// The list `[τ_0_0 : P]`, over which the requirements of a protocol are read.
    Protocol(ProtoId),
}

impl Over {
    /// Whether the list has this generic parameter.
    pub fn has(self, g: ParamId) -> bool
        ensures { IsTrue result ↔ HasParam (source_over self) g }
    {
        match self {
            Over::Signature(params) => params.has(g),
            Over::Protocol(_) => is_self(g),
        }
    }

    /// The protocol, or None for the list of a signature.
    pub fn owner(self) -> Option<ProtoId>
        ensures { result ≡ owner_of self }
    {
        match self {
            Over::Signature(_) => None,
            Over::Protocol(p) => Some(p),
        }
    }
}

/// Whether the generic parameter is `Self`.
fn is_self(g: ParamId) -> bool
    ensures { IsTrue result ↔ (g ≡ record { depth = 0; index = 0 }) }
{
    g.depth == 0 && g.index == 0
}
