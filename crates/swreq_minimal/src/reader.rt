//! By what the words of a signature's rules are read.
use std::alloc::Global;
use swreq_machine::complete::CompleteRules;
use swreq_machine::derive::Params;
use swreq_machine::world::World;

/// By what the words of a signature's rules are read: its text, the rules, and its generic parameters.
#[derive(Clone, Copy)]
pub(crate) struct Reader<'a, 'b> {
    pub alloc: Global,
    pub world: &'a World,
    pub rules: &'a CompleteRules<'b>,
    pub params: Params,
}
