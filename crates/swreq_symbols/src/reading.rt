//! By what type parameters are read.

use crate::over::Over;
use crate::text::Text;
use swreq_complete::CompleteRules;

/// What type parameters are read by: a text, and rules over the list of a signature or over a protocol.
#[derive(Clone, Copy)]
pub struct Reading<'a, 'b> {
    pub text: Text<'a>,
    pub rules: &'a CompleteRules<'b>,
    pub over: Over,
}
