//! What families are asked over.
ghost use Rattle.std.specs.Prelude.{◌≡◌};
ghost use Rattle.swreq_valid.specs.swreq_symbols.Texts.{world_of};
ghost use Rattle.swreq_reqsig.specs.{Families.{owned}, Named.{AreNamed}, Outlines.{outlines_of}, Places.{all_places}};

use crate::outlines::Outline;
use crate::places::Place;
use swreq_print::rank::Lists;
use swreq_valid::complete::Limits;
use swreq_valid::symbols::Text;

/// A text with the requirements of all its protocols, these by the last names of type parameters and their places by those names, and the
/// limits of completions.
#[derive(Clone, Copy)]
pub(crate) struct Setting<'a> {
    pub text: Text<'a>,
    pub places: &'a [Place],
    pub outlines: &'a [Outline],
    pub named: &'a Lists<usize>,
    pub limits: Limits,
    ghost all: { places.now ≡ all_places text.world.now },
    ghost outlined: { outlines.now ≡ outlines_of text.world.now.lexicon (owned (world_of text)) },
    ghost by_name: { ∥ AreNamed outlines.now named.now ∥₁ },
}
