//! The equation of a requirement of equality, read after a type parameter.
ghost use Rattle.std.specs.Prelude.{OnOk};
ghost use Rattle.swreq_correspondence.specs.swreq_derive.declared.requirements.Requirement.TheVariants as required;
ghost use Rattle.swreq_derivation.specs.{Origins.{IsOrigin, IsWrittenOf}, UnderWay.{ContinuesFrom}};
ghost use Rattle.swreq_readings.specs.Readable.{ReadsAlike};
ghost use Rattle.swreq_births.specs.Readings.{IsReadBy};

use std::alloc::AllocError;
use swreq_derivation::{Derivation, Origin, Requirement, add_requirement, add_symm, add_trans};
use swreq_param::TermId;
use swreq_readings::{Alphabet, Sides, read_word};

/// States that the two sides of the equation of a requirement `[U == V]` are read alike. Lines state that U and V each equal what their
/// words are read as. `ids` are the ids of U and V, with T for `Self` if there is an owner.
pub(crate) fn give_same(
    alphabet: &Alphabet,
    derivation: &mut Derivation,
    origin: Origin,
    ids: (TermId, TermId),
    words: Sides,
) -> Result<(), AllocError>
    requires origin { IsOrigin derivation.old origin }
    requires left { IsReadBy alphabet.now derivation.old origin.for_self ids.0 words.from.now }
    requires right { IsReadBy alphabet.now derivation.old origin.for_self ids.1 words.to.now }
    ensures both { OnOk result (ReadsAlike alphabet.now derivation.old derivation.new
        origin.for_self words.entry.from.now words.entry.to.now) }
    ensures continues { ContinuesFrom
        (IsWrittenOf derivation.old origin (required.Same ids.0 ids.1))
        derivation.old derivation.new }
{
    let (left, right) = ids;
    add_requirement(derivation, origin, Requirement::Same { left, right })?;
    let first = read_word(alphabet, derivation, origin.for_self, words.from)?;
    let last = read_word(alphabet, derivation, origin.for_self, words.to)?;
    add_symm(derivation, left, first)?;
    add_trans(derivation, first, left, right)?;
    add_trans(derivation, first, right, last)
}
