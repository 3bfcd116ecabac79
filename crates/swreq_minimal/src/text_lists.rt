//! Lists of requirements of a text.
ghost use Rattle.swreq_machine.specs.swreq_valid.Plans.{AreRequirementsOfText};

use swreq_machine::derive::{Params, Requirement};
use swreq_machine::symbols::Text;

/// A list of requirements of a text, with its generic parameters.
#[derive(Clone, Copy)]
pub(crate) struct TextList<'t, 'l> {
    pub text: Text<'t>,
    pub params: Params,
    pub list: &'l [Requirement],
    ghost known: { ∥ AreRequirementsOfText text list.now ∥₁ },
}
