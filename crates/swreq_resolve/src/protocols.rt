// The first name that is refused in protocols.
ghost use Rattle.std.specs.Prelude.{◌≡◌};
ghost use Rattle.swreq_closure.specs.Chains.{leads};
ghost use Rattle.swreq_resolve.specs.{First.{least, walk}, Refusals.{by_place, primary_of, of_primaries, of_members, of_member, of_protocol}, FirstWords.{begins}};

use crate::check::{FirstWords, check_duplicates, check_entities, check_requirements};
use crate::refusal::{Fault, Refusal, noted};
use swreq_closure::Closure;
use swreq_decl::{AssocDecl, ProtocolDecl};
use swreq_names::{Declaration, Declared, has_member};

#[tactic(auto, using(crate::proofs::Walks::walked, crate::proofs::Walks::least_both))]
fn check_member(
    text: &[u8],
    declared: &Declared,
    first_words: FirstWords<'_>,
    member: &AssocDecl,
    best: Option<Refusal>,
) -> Option<Refusal>
    ensures { result ≡ least best
        (of_member text.now declared.now (begins declared.now first_words.entry) member.now) }
{
    let best = check_entities(text, declared, first_words, member.inherits.items(), best);
    check_requirements(text, declared, first_words, member.clause.items(), best)
}

fn check_members(
    text: &[u8],
    declared: &Declared,
    first_words: FirstWords<'_>,
    members: &[AssocDecl],
    best: Option<Refusal>,
) -> Option<Refusal>
    ensures { result ≡ walk
        (of_member text.now declared.now (begins declared.now first_words.entry)) best members.now }
{
    members.iter().fold(best, |b, m| check_member(text, declared, first_words, m, b))
}

fn check_primary(
    declared: &Declared,
    inherits: &Closure,
    place: usize,
    name: &Declaration,
    best: Option<Refusal>,
) -> Option<Refusal>
    ensures { result ≡ least best (primary_of declared.now (leads inherits.now) place name.now) }
{
    let lacking = !has_member(declared, inherits, place, name.name.items());
    noted(best, lacking, Fault::NoSuchMember, name.at)
}

fn check_primaries(
    declared: &Declared,
    inherits: &Closure,
    place: usize,
    names: &[Declaration],
    best: Option<Refusal>,
) -> Option<Refusal>
    ensures { result ≡ walk (primary_of declared.now (leads inherits.now) place) best names.now }
{
    names.iter().fold(
        best,
        |b, name| check_primary(declared, inherits, place, name, b),
    )
}

/// Checks the primary names of the i-th protocol.
fn check_all_primaries(
    declared: &Declared,
    inherits: &Closure,
    place: usize,
    best: Option<Refusal>,
) -> Option<Refusal>
    ensures { result ≡ least best (of_primaries declared.now (leads inherits.now) place) }
{
    let primaries = declared.primaries(place);
    let best = check_duplicates(primaries, primaries.items(), best);
    check_primaries(declared, inherits, place, primaries.items(), best)
}

/// Checks the associated types of the i-th protocol.
#[tactic(auto, using(crate::proofs::Walks::walked, crate::proofs::Walks::least_both))]
fn check_all_members(
    text: &[u8],
    declared: &Declared,
    first_words: FirstWords<'_>,
    place: usize,
    members: &[AssocDecl],
    best: Option<Refusal>,
) -> Option<Refusal>
    ensures { result ≡ least best
        (of_members text.now declared.now
        (begins declared.now first_words.entry) place members.now) }
{
    let names = declared.members(place);
    let best = check_duplicates(names, names.items(), best);
    check_members(text, declared, first_words, members, best)
}

/// Checks the i-th protocol.
fn check_protocol(
    text: &[u8],
    declared: &Declared,
    inherits: &Closure,
    place: usize,
    protocol: &ProtocolDecl,
    best: Option<Refusal>,
) -> Option<Refusal>
    ensures { result ≡ least best
        (of_protocol text.now declared.now (leads inherits.now) place protocol.now) }
{
    let first_words = FirstWords::Protocol(inherits, place);
    let best = check_all_primaries(declared, inherits, place, best);
    let best = check_entities(text, declared, first_words, protocol.inherits.items(), best);
    let best = check_requirements(text, declared, first_words, protocol.clause.items(), best);
    check_all_members(
        text,
        declared,
        first_words,
        place,
        protocol.members.items(),
        best,
    )
}

/// Checks the protocols.
pub fn check_protocols(
    text: &[u8],
    declared: &Declared,
    inherits: &Closure,
    protocols: &[ProtocolDecl],
    best: Option<Refusal>,
) -> Option<Refusal>
    ensures { result ≡ least best
        (by_place (of_protocol text.now declared.now (leads inherits.now)) 0 protocols.now) }
{
    let mut best = best;
    for (i, p) in protocols.iter().enumerate() {
        best = check_protocol(text, declared, inherits, i, p, best);
    }
    best
}
