//! What is known of a list of requirements and of the protocols of its text.
ghost use Rattle.std.specs.Prelude.{◌≡◌, ◌↔◌, ◌<◌, Contains, MatchOption, IsTrue};
ghost use Rattle.swreq_param.specs.declared.ids.AssocId.{AssocId};
ghost use Rattle.swreq_derive.specs.Facts.{generic_params};

use crate::requirements::Requirement;
use swreq_param::{AssocId, NameId, ParamId, ProtoId};

/// The generic parameters of a list: first the outer ones, `τ_0_i` with i below `outer`, then the
/// inner ones, `τ_1_i` with i below `inner`.
#[derive(Clone, Copy, Debug, PartialEq, Eq)]
pub struct Params {
    pub outer: u32,
    pub inner: u32,
}

impl Params {
    /// Whether a generic parameter is one of them.
    pub fn has(self, g: ParamId) -> bool
        ensures { IsTrue result ↔ Contains (generic_params self) g }
    {
        match g.depth {
            0 => g.index < self.outer,
            1 => g.index < self.inner,
            _ => false,
        }
    }
}

/// A list of requirements with its generic parameters, and the protocols of its text.
///
/// Protocols and names are of the facts where their ranks are below the numbers of protocols and of
/// names. No call takes memory.
pub trait Facts {
    ghost use Rattle.swreq_derive.specs.Facts.{IdFacts, AreOneToOne};

    ghost meaning: { Self → IdFacts };

    /// The generic parameters of the list.
    fn params(&self) -> Params
        ensures { result ≡ (meaning self.now).params };

    /// The requirements of the list, in written order.
    fn written(&self) -> &[Requirement]
        ensures { result.now ≡ (meaning self.now).written };

    /// The requirements of a protocol of the facts, in written order.
    fn of_protocol(&self, p: ProtoId) -> &[Requirement]
        requires { p.rank < (meaning self.now).protocols }
        ensures { result.now ≡ (meaning self.now).of_protocol p };

    /// The associated type that a protocol of the facts declares by a name of the facts, or None
    /// if and only if it declares none.
    fn declared(&self, p: ProtoId, a: NameId) -> Option<AssocId>
        requires proto { p.rank < (meaning self.now).protocols }
        requires name { a.rank < (meaning self.now).names }
        ensures { MatchOption result
            ((d : AssocId) → Contains (meaning self.now).associated_types
            (record { proto = p; name = a; assoc = d }) → ⊥)
            (λ d. Contains (meaning self.now).associated_types
            (record { proto = p; name = a; assoc = d })) };

    ghost one_to_one: { (s : Self) → AreOneToOne (meaning s).associated_types };
}
