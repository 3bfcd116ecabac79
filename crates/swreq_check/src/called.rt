//! Calls that are answered.
ghost use Rattle.swreq_check.specs.CallLines.{ArePlacesOf};

use crate::passed::Passed;
use swreq_machine::lowering::FuncId;
use swreq_subst::Call;

/// A text that has passed its check, and calls in it.
#[derive(Clone, Copy)]
pub(crate) struct Called<'a> {
    pub passed: Passed<'a>,
    pub calls: &'a [Call],
}

/// The calls of a signature: their places, among these.
#[derive(Clone, Copy)]
pub(crate) struct CallsOf<'a> {
    pub called: Called<'a>,
    pub f: FuncId,
    pub places: &'a [usize],
    ghost placed: { ∥ ArePlacesOf called.calls.now f places.now ∥₁ },
}
