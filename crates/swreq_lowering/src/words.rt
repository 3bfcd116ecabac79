// What the words of a text stand for.
ghost use Rattle.swreq_lowering.specs.Small.{HasFewParams};

use swreq_lexicon::Lexicon;
use swreq_lexicon::decl::Skeleton;

/// The bytes of a text, its parts, and what its words stand for.
#[derive(Clone, Copy)]
pub struct Words<'a> {
    pub text: &'a [u8],
    pub skeleton: &'a Skeleton,
    pub lexicon: &'a Lexicon,
    ghost few: { HasFewParams lexicon.now.resolved.declared },
}
