//! What lists are asked over.
use swreq_machine::complete::Limits;
use swreq_machine::derive::Params;
use swreq_machine::valid::CheckedText;

/// A text with the rules of its protocols, the generic parameters of its lists, and the limits of their completions.
#[derive(Drop)]
pub struct Setting<'a> {
    pub checked: CheckedText<'a, 'a>,
    pub params: Params,
    pub limits: Limits,
}
