//! Requirements of which each type parameter is known by its last name alone.
ghost use Rattle.std.specs.Prelude.{◌≡◌, IfOk};
ghost use Rattle.swreq_valid.specs.swreq_symbols.Texts.{IsRequirementOfText, IsTypeOfText, term_of, world_of};
ghost use Rattle.swreq_valid.specs.swreq_world.Closed.{IsStepOf};
ghost use Rattle.swreq_reqsig.specs.{Families.{owned}, Outlines.{outline_of, outlines_of}, Places.{all_places, owned_at}, Saying.{last_name, name_of}};

use crate::places::Place;
use std::alloc::{AllocError, Global};
use swreq_valid::derive::Requirement;
use swreq_valid::param::{NameId, ProtoId, Step, TermId};
use swreq_valid::symbols::Text;
use swreq_valid::world::World;

/// A requirement of a protocol, with the last names of its type parameters in place of these. The bare `Self` has none.
///
/// What a protocol requires of `Self` holds of all that conforms to it: so its owner is told where something may be required of `Self`.
#[derive(Clone, Copy, Debug)]
pub(crate) enum Outline {
    Conformance {
        subject: Option<NameId>,
        proto: ProtoId,
    },
    Object {
        subject: Option<NameId>,
        owner: ProtoId,
    },
    Equality {
        left: Option<NameId>,
        right: Option<NameId>,
        owner: ProtoId,
    },
}

/// What may be said of type parameters beside conformances.
#[derive(Clone, Copy, Debug)]
pub(crate) enum Kind {
    IsObject,
    IsEqual,
}

/// The name of a step.
fn step_name(world: &World, step: Step) -> NameId
    requires { IsStepOf world.now.lexicon step }
    ensures { result ≡ name_of world.now.lexicon step }
{
    match step {
        Step::Bound(d) => world.assoc(d).name,
        Step::Name(a) => a,
    }
}

/// The name of the last member of a type parameter, or None for a generic parameter.
fn last_name(text: &Text<'_>, t: TermId) -> Option<NameId>
    requires { IsTypeOfText text.now t }
    ensures { result ≡ last_name text.now.world.now.lexicon (term_of text.now t) }
{
    let (_, step) = text.table.split(t)?;
    Some(step_name(text.world, step))
}

/// A requirement of a protocol by the last names of its type parameters.
fn outline_of(text: &Text<'_>, place: &Place) -> Outline
    requires { IsRequirementOfText text.now place.now.requirement }
    ensures { result
        ≡ outline_of text.now.world.now.lexicon (owned_at text.now.table.now place.now) }
{
    let owner = place.proto;
    match place.requirement {
        Requirement::Conf { subject, proto } => Outline::Conformance {
            subject: last_name(text, subject),
            proto,
        },
        Requirement::Layout { subject } => Outline::Object {
            subject: last_name(text, subject),
            owner,
        },
        Requirement::Same { left, right } => Outline::Equality {
            left: last_name(text, left),
            right: last_name(text, right),
            owner,
        },
    }
}

/// The requirements of all protocols by the last names of their type parameters.
pub(crate) fn outlines(
    alloc: Global,
    text: &Text<'_>,
    places: &[Place],
) -> Result<Vec<Outline>, AllocError>
    requires { places.now ≡ all_places text.now.world.now }
    ensures { IfOk result (λ v. v.items
        ≡ outlines_of text.now.world.now.lexicon (owned (world_of text.now))) }
{
    let mut v = Vec::new(alloc);
    for k in 0..places.len() {
        let place = &places[k];
        v.push(outline_of(text, place))?;
    }
    Ok(v)
}
