//! What the names of a text refer to.

ghost use Rattle.std.specs.{Prelude.{◌≡◌, ℕ, Bool, List, ◌&&◌, length, IfOk}, List.{list_any}};
ghost use Rattle.swreq_closure.specs.Chains.{leads, AreWithin, IsClosureOf};
ghost use Rattle.swreq_names.specs.{Spaces.{any_below, protocol_of, signature_of, nested_of, param_of, declares, has_member}, Inheritance.{LeadToDeclared}, Names.{HasDeclared}};

use crate::declared::Declared;
use crate::inheritance::inheritance;
use crate::signature::{Param, Signature};
use std::alloc::{AllocError, Global};
use std::marker::Model;
use swreq_closure::Closure;
use swreq_decl::Skeleton;
use swreq_text::Seq;

/// Whether this protocol inherits one of these.
fn inherits_any(inherits: &Closure, i: usize, places: &[usize]) -> bool
    ensures { result ≡ list_any (leads inherits.now i) places.now }
{
    places.iter().any(|j| inherits.leads(i, *j))
}

/// Whether a protocol that this one inherits declares the name.
fn inherits_name(d: &Declared, inherits: &Closure, i: usize, name: &[u8]) -> bool
    ensures { result ≡ any_below (λ j. leads inherits.now i j && declares d.now j name.now)
        (length d.now.members) }
{
    inherits_any(inherits, i, d.declarers(name))
}

/// Whether the name is a member name of a protocol.
pub fn has_member(d: &Declared, inherits: &Closure, i: usize, name: &[u8]) -> bool
    ensures { result ≡ has_member d.now (leads inherits.now) i name.now }
{
    d.declares(i, name) || inherits_name(d, inherits, i, name)
}

/// The names that a text declares, and which protocol inherits which.
///
/// Protocols are numbered in written order, from 0. All look-ups are by the bytes of a name, and take no memory.
#[derive(Drop)]
pub struct Names {
    declared: Box<Declared>,
    /// The protocols that each one inherits directly.
    direct: Vec<Seq<usize>>,
    inherits: Closure,
}

impl Model for Names {
    ghost use Rattle.swreq_closure.specs.Chains.{AreWithin, IsClosureOf};
    ghost use Rattle.swreq_names.specs.{Inheritance.{LeadToDeclared}, Names.{NamesView}};

    ghost Value = { NamesView };

    ghost view = { λ n. record { declared = n.declared.value; direct = n.direct.items; inherits = n.inherits } };

    ghost invariant = { λ n. IsClosureOf n.direct.items n.inherits × AreWithin n.direct.items
        × LeadToDeclared n.declared.value.protocols n.direct.items };
}

impl Names {
    /// The names of a skeleton, whether they resolve or not.
    pub fn of(alloc: Global, text: &[u8], s: &Skeleton) -> Result<Names, AllocError>
        ensures { IfOk result (HasDeclared text.now s.now) }
    {
        let declared = Declared::of(alloc, text, s)?;
        let direct = inheritance(alloc, text, &declared, s.protocols.items())?;
        let inherits = Closure::of(alloc, &direct)?;
        let declared = Box::new(alloc, declared)?;
        Ok(Names {
            declared,
            direct,
            inherits,
        })
    }

    /// The declared names, in their spaces.
    pub fn declared(&self) -> &Declared
        ensures { result.now ≡ self.now.declared }
    {
        &self.declared
    }

    /// The protocols that each one inherits directly, by places in written order.
    pub fn direct(&self) -> &[Seq<usize>]
        ensures is { result.now ≡ self.now.direct }
        ensures closure { IsClosureOf result.now self.now.inherits }
        ensures within { AreWithin result.now }
        ensures declared { LeadToDeclared self.now.declared.protocols result.now }
    {
        &self.direct
    }

    /// Which protocol inherits which, by places in written order.
    pub fn inheritance(&self) -> &Closure
        ensures { result.now ≡ self.now.inherits }
    {
        &self.inherits
    }

    /// The protocol that a name refers to.
    pub fn find_protocol(&self, name: &[u8]) -> Option<usize>
        ensures { result ≡ protocol_of self.now.declared name.now }
    {
        self.declared.protocol_of(name)
    }

    /// The struct, or the function at the top, that a name refers to.
    pub fn find_signature(&self, name: &[u8]) -> Option<Signature>
        ensures { result ≡ signature_of self.now.declared name.now }
    {
        self.declared.signature_of(name)
    }

    /// The function of the struct `outer` that a name refers to.
    pub fn find_nested(&self, outer: &[u8], name: &[u8]) -> Option<Signature>
        ensures { result ≡ nested_of self.now.declared outer.now name.now }
    {
        self.declared.nested_of(outer, name)
    }

    /// The generic parameter of a signature that a name refers to.
    pub fn find_param(&self, signature: Signature, name: &[u8]) -> Option<Param>
        ensures { result ≡ param_of self.now.declared signature name.now }
    {
        self.declared.param_of(signature, name)
    }

    /// Whether a protocol declares the name itself.
    pub fn declares(&self, protocol: usize, name: &[u8]) -> bool
        ensures { result ≡ declares self.now.declared protocol name.now }
    {
        self.declared.declares(protocol, name)
    }

    /// Whether a protocol, or one that it inherits, declares the name.
    pub fn has_member(&self, protocol: usize, name: &[u8]) -> bool
        ensures { result
            ≡ has_member self.now.declared (leads self.now.inherits) protocol name.now }
    {
        has_member(&self.declared, &self.inherits, protocol, name)
    }

    /// Whether the one protocol inherits the other.
    pub fn inherits(&self, heir: usize, protocol: usize) -> bool
        ensures { result ≡ leads self.now.inherits heir protocol }
    {
        self.inherits.leads(heir, protocol)
    }
}
