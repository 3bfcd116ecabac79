//! Over what the pieces are made that are printed.
ghost use Rattle.std.specs.Prelude.{◌<◌, length};
ghost use Rattle.swreq_check.specs.Wanted.{ArePlacesFor};

use crate::content::Content;
use std::alloc::Global;
use swreq_births::History;
use swreq_explain::TextHistory;
use swreq_machine::Machine;
use swreq_machine::complete::Limits;
use swreq_machine::lowering::FuncId;
use swreq_machine::map::{Endings, PropertyMap};
use swreq_machine::valid::Protocols;
use swreq_machine::world::World;

/// A text whose protocols are checked, and what is asked of the machines of its signatures.
#[derive(Clone, Copy)]
pub(crate) struct Setting<'a> {
    pub alloc: Global,
    pub world: &'a World,
    /// The rules of the protocols, within the limits.
    pub protocols: &'a Protocols,
    pub limits: Limits,
    /// What is printed.
    pub content: Content,
    /// Of each signature the places of the pieces that its machine makes.
    pub places: &'a [Vec<usize>],
    /// What is the same for the histories of all signatures, where derivations are printed for queries.
    pub base: &'a Option<TextHistory<'a>>,
    /// What the rules of the protocols keep with the endings of words, where queries are answered.
    pub endings: &'a Option<Endings>,
    ghost placed: { ∥ ArePlacesFor world.now content places.now ∥₁ },
}

/// A signature of the text, which is checked next.
#[derive(Clone, Copy)]
pub(crate) struct Turn<'s, 'a> {
    pub s: &'s Setting<'a>,
    pub f: FuncId,
    ghost in_text: { f.place < length s.now.world.now.signatures },
}

/// A signature with its machine.
#[derive(Clone, Copy)]
pub(crate) struct Own<'a> {
    pub s: &'a Setting<'a>,
    pub f: FuncId,
    pub machine: &'a Machine<'a>,
}

/// A signature with its machine, kept for the functions that add nothing to it.
#[derive(Drop)]
pub(crate) struct Kept<'b> {
    pub f: FuncId,
    pub machine: Machine<'b>,
}

/// With what the queries of a signature are answered.
#[derive(Clone, Copy)]
pub(crate) struct Means<'a> {
    pub own: Own<'a>,
    /// The map of the machine's rules.
    pub map: &'a PropertyMap<'a>,
    /// The history of the machine, where derivations are printed.
    pub history: Option<&'a History<'a>>,
}
