//! Of which signatures of a text the minimised list is wanted.
ghost use Rattle.swreq_check.specs.Wanted.{AreFlagsFor};

use crate::content::Content;
use crate::passed::Passed;

/// A text that has passed its check, and of which of its signatures the minimised list is wanted.
#[derive(Clone, Copy)]
pub struct Minimising<'a> {
    pub passed: Passed<'a>,
    /// What is printed.
    pub content: Content,
    /// Of each signature, whether its minimised list is wanted.
    pub wanted: &'a [bool],
    ghost flagged: { ∥ AreFlagsFor passed.world.now content wanted.now ∥₁ },
}
