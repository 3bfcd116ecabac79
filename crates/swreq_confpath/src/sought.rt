//! Over what the given path is sought, and where requirements lead.
ghost use Rattle.std.specs.Prelude.{◌≡◌, ◌++◌, [], ◌∷◌, IfOk, List};
ghost use Rattle.swreq_machine.specs.swreq_param.Terms.{Term};
ghost use Rattle.swreq_machine.specs.swreq_derive.Derivation.{for_self};
ghost use Rattle.swreq_machine.specs.swreq_lexicon.Views.{IsProtocol};
ghost use Rattle.swreq_print.specs.swreq_word.declared.symbols.Symbol.{Symbol};
ghost use Rattle.swreq_machine.specs.swreq_symbols.{Texts.{IsTypeOfText, term_of}, Vanishing.{IsLeastBy, Links}};
ghost use Rattle.swreq_machine.specs.Asked.{IsLeastWord};
ghost use Rattle.swreq_machine.specs.swreq_valid.Rounds.{last_rules};
ghost use Rattle.swreq_confpath.specs.{declared.places.Place.TheVariants.{Conformance}, Routes.{TermPlace, gone_on}, Searches.{HasLeastWord, IsPlaceIn, StandsFor, required_at, world_in}};

use crate::places::Place;
use std::alloc::{AllocError, Global};
use swreq_machine::Machine;
use swreq_machine::complete::CompleteRules;
use swreq_machine::derive::Requirement;
use swreq_machine::map::append;
use swreq_machine::param::{ProtoId, TermId};
use swreq_machine::symbols::{Text, equation};
use swreq_machine::word::{Symbol, Word};
use swreq_machine::world::World;

/// Over what the path is sought that is given for a conformance: a text, and the list of a signature with its machine.
#[derive(Clone, Copy)]
pub(crate) struct Sought<'a> {
    pub alloc: Global,
    pub text: Text<'a>,
    pub machine: &'a Machine<'a>,
    pub list: &'a [Requirement],
    /// The symbols that rules of the machine may change in a word that is reduced up to them.
    pub changed: &'a [Symbol],
    /// The subject of the conformance that is sought, and its protocol.
    pub subject: TermId,
    pub proto: ProtoId,
}

/// The list from which the next number is at a place: that of the signature, or that of the protocol of the last conformance.
pub(crate) fn required_at<'a>(
    world: &'a World,
    list: &'a [Requirement],
    place: &Place,
) -> &'a [Requirement]
    requires { IsPlaceIn world.now place.now }
    ensures { result.now ≡ required_at world.now list.now place.now }
{
    match place {
        Place::Start => list,
        Place::Conformance { proto, .. } => world.bare_requirements(*proto),
    }
}

/// The least word of those that the rules link to a least word followed by another.
fn least(
    alloc: Global,
    rules: &CompleteRules<'_>,
    front: &[Symbol],
    rest: &[Symbol],
) -> Result<Word, AllocError>
    requires { IsLeastBy rules.now front.now }
    ensures linked { IfOk result (Links rules.now (front.now ++ rest.now)) }
    ensures least { IfOk result (IsLeastBy rules.now) }
{
    let mut word = Vec::with_capacity(alloc, front.len() + rest.len())?;
    word.extend_from_slice(front)?;
    for k in 0..rest.len() {
        word.reserve(1)?;
        append(rules, &mut word, rest[k]);
    }
    Ok(Word::new(word))
}

/// A word without its first symbol.
fn behind_first(word: &[Symbol]) -> &[Symbol]
    ensures { (x : Symbol) (rest : List Symbol) → word.now ≡ x ∷ rest → result.now ≡ rest }
{
    match word {
        [] => &[],
        [_, rest @ ..] => rest,
    }
}

/// The least word of a type parameter of the signature.
fn word_of(sought: &Sought<'_>, t: TermId) -> Result<Word, AllocError>
    requires { IsTypeOfText sought.now.text t }
    ensures { IfOk result (IsLeastWord (world_in sought.now) sought.now.machine.now
        (term_of sought.now.text t)) }
{
    let side = Requirement::Layout { subject: t };
    let (_, word) = equation(sought.alloc, &sought.text, None, &side)?;
    least(sought.alloc, sought.machine.rules(), &[], word.symbols())
}

/// The least word of a type parameter of a protocol, where `Self` is the type parameter whose least word this is.
fn word_behind(
    sought: &Sought<'_>,
    base: &Word,
    owner: ProtoId,
    t: TermId,
) -> Result<Word, AllocError>
    requires t { IsTypeOfText sought.now.text t }
    requires base { IsLeastBy (last_rules sought.now.machine.now.rounds) base.now }
    ensures { (u : Term) → IsLeastWord (world_in sought.now) sought.now.machine.now u base.now
        → IfOk result (IsLeastWord (world_in sought.now) sought.now.machine.now
        (for_self u (term_of sought.now.text t))) }
{
    let side = Requirement::Layout { subject: t };
    let (_, word) = equation(sought.alloc, &sought.text, Some(owner), &side)?;
    let steps = behind_first(word.symbols());
    least(sought.alloc, sought.machine.rules(), base.symbols(), steps)
}

/// The least word of the subject of a conformance to which one goes on from a place.
fn subject_from(sought: &Sought<'_>, from: &Place, t: TermId) -> Result<Word, AllocError>
    requires t { IsTypeOfText sought.now.text t }
    requires least { HasLeastWord sought.now from.now }
    ensures { (a : TermPlace) (p : ProtoId) → StandsFor sought.now from.now a
        → IfOk result (λ u.
        StandsFor sought.now (Conformance u p) (gone_on a (term_of sought.now.text t) p)) }
{
    match from {
        Place::Start => word_of(sought, t),
        Place::Conformance { subject, proto } => word_behind(sought, subject, *proto, t),
    }
}

/// The place to which one goes on from a place by a conformance.
pub(crate) fn follow(
    sought: &Sought<'_>,
    from: &Place,
    subject: TermId,
    proto: ProtoId,
) -> Result<Place, AllocError>
    requires subject { IsTypeOfText sought.now.text subject }
    requires proto { IsProtocol sought.now.text.world.now.lexicon proto }
    requires least { HasLeastWord sought.now from.now }
    ensures place { IfOk result (IsPlaceIn sought.now.text.world.now) }
    ensures stands { (a : TermPlace) → StandsFor sought.now from.now a
        → IfOk result (λ place.
        StandsFor sought.now place (gone_on a (term_of sought.now.text subject) proto)) }
{
    let subject = subject_from(sought, from, subject)?;
    Ok(Place::Conformance { subject, proto })
}
