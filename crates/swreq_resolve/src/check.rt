// The first refusal of names in types, constraints and requirements.
ghost use Rattle.std.specs.{Prelude.{◌≡◌, ℕ, Bool, List, None, ◌&&◌, length, is_some}, List.{flat_map, list_any}};
ghost use Rattle.swreq_closure.specs.Chains.{leads};
ghost use Rattle.swreq_names.specs.Spaces.{word, protocol_of, declares, any_below, has_member, param_of};
ghost use Rattle.swreq_resolve.specs.{First.{least, walk}, Refusals.{begins_in_protocol, begins_in_signature, has_arity, of_bound, of_step, of_protocol_name, of_type, of_entity, of_named, of_requirement, duplicate_of}, FirstWords.{begins}};

use crate::refusal::{Fault, Refusal, noted};
use swreq_closure::Closure;
use swreq_decl::{Entity, ReqDecl, Span, StepDecl, TypeDecl};
use swreq_names::{Declaration, Declared, Directory, Signature, has_member, word};

/// The names with which a type may begin: in a protocol `Self` and its member names, in a signature its generic parameters. A protocol is
/// given by which protocol inherits which, and by its place in written order.
#[derive(Clone, Copy)]
pub enum FirstWords<'a> {
    Protocol(&'a Closure, usize),
    Signature(Signature),
}

fn begins_in_protocol(declared: &Declared, inherits: &Closure, place: usize, name: &[u8]) -> bool
    ensures { result ≡ begins_in_protocol declared.now (leads inherits.now) place name.now }
{
    b"Self".as_slice() == name || has_member(declared, inherits, place, name)
}

fn begins_in_signature(declared: &Declared, signature: Signature, name: &[u8]) -> bool
    ensures { result ≡ begins_in_signature declared.now signature name.now }
{
    declared.param_of(signature, name).is_some()
}

/// Whether a type may begin with this name.
fn begins(declared: &Declared, first_words: FirstWords<'_>, name: &[u8]) -> bool
    ensures { result ≡ begins declared.now first_words.entry name.now }
{
    match first_words {
        FirstWords::Protocol(inherits, i) => begins_in_protocol(declared, inherits, i, name),
        FirstWords::Signature(signature) => begins_in_signature(declared, signature, name),
    }
}

fn check_declaration(
    space: &Directory,
    declaration: &Declaration,
    best: Option<Refusal>,
) -> Option<Refusal>
    ensures { result ≡ least best (duplicate_of space.now declaration.now) }
{
    let again = space.has_before(declaration.name.items(), declaration.at);
    noted(best, again, Fault::Duplicate, declaration.at)
}

/// Checks for names that a list of their space has before them.
pub fn check_duplicates(
    space: &Directory,
    items: &[Declaration],
    best: Option<Refusal>,
) -> Option<Refusal>
    ensures { result ≡ walk (duplicate_of space.now) best items.now }
{
    items
        .iter()
        .fold(best, |b, d| check_declaration(space, d, b))
}

/// Whether a protocol may have this number of arguments.
fn has_arity(declared: &Declared, protocol: usize, count: usize) -> bool
    ensures { result ≡ has_arity declared.now protocol count }
{
    count == 0 || count == declared.primaries(protocol).items().len()
}

/// Checks the name of a protocol, with the number of its arguments.
fn check_protocol_name(
    text: &[u8],
    declared: &Declared,
    span: Span,
    count: usize,
    best: Option<Refusal>,
) -> Option<Refusal>
    ensures { result ≡ least best
        (of_protocol_name declared.now span count (protocol_of declared.now (word text.now span))) }
{
    match declared.protocol_of(word(text, span)) {
        Some(protocol) => {
            let wrong = !has_arity(declared, protocol, count);
            noted(best, wrong, Fault::WrongArity, span.start)
        }
        None => noted(best, true, Fault::NotAProtocol, span.start),
    }
}

/// Checks the names in `.[P]A`.
fn check_bound(
    text: &[u8],
    declared: &Declared,
    proto: Span,
    name: Span,
    best: Option<Refusal>,
) -> Option<Refusal>
    ensures { result ≡ least best
        (of_bound text.now declared.now proto name
        (protocol_of declared.now (word text.now proto))) }
{
    match declared.protocol_of(word(text, proto)) {
        Some(protocol) => {
            let lacking = !declared.declares(protocol, word(text, name));
            noted(best, lacking, Fault::NoSuchMember, name.start)
        }
        None => noted(best, true, Fault::NotAProtocol, proto.start),
    }
}

fn check_step(
    text: &[u8],
    declared: &Declared,
    step: &StepDecl,
    best: Option<Refusal>,
) -> Option<Refusal>
    ensures { result ≡ least best (of_step text.now declared.now step.now) }
{
    match step {
        StepDecl::Plain { .. } => best,
        StepDecl::Bound { proto, name } => check_bound(text, declared, *proto, *name, best),
    }
}

fn check_steps(
    text: &[u8],
    declared: &Declared,
    steps: &[StepDecl],
    best: Option<Refusal>,
) -> Option<Refusal>
    ensures { result ≡ walk (of_step text.now declared.now) best steps.now }
{
    steps
        .iter()
        .fold(best, |b, s| check_step(text, declared, s, b))
}

#[tactic(auto, using(crate::proofs::Walks::walked, crate::proofs::Walks::least_both))]
pub fn check_type(
    text: &[u8],
    declared: &Declared,
    first_words: FirstWords<'_>,
    written_type: &TypeDecl,
    best: Option<Refusal>,
) -> Option<Refusal>
    ensures { result ≡ least best
        (of_type text.now declared.now (begins declared.now first_words.entry) written_type.now) }
{
    let outside = !begins(declared, first_words, word(text, written_type.head));
    let best = noted(best, outside, Fault::ConcreteType, written_type.head.start);
    check_steps(text, declared, written_type.steps.items(), best)
}

fn check_types(
    text: &[u8],
    declared: &Declared,
    first_words: FirstWords<'_>,
    types: &[TypeDecl],
    best: Option<Refusal>,
) -> Option<Refusal>
    ensures { result ≡ walk
        (of_type text.now declared.now (begins declared.now first_words.entry)) best types.now }
{
    types
        .iter()
        .fold(best, |b, t| check_type(text, declared, first_words, t, b))
}

/// Checks what stands for a protocol, without its arguments.
fn check_named(
    text: &[u8],
    declared: &Declared,
    entity: &Entity,
    best: Option<Refusal>,
) -> Option<Refusal>
    ensures { result ≡ least best (of_named text.now declared.now entity.now) }
{
    if entity.layout {
        best
    } else {
        check_protocol_name(text, declared, entity.span, entity.args.items().len(), best)
    }
}

#[tactic(auto, using(crate::proofs::Walks::walked, crate::proofs::Walks::least_both))]
pub fn check_entity(
    text: &[u8],
    declared: &Declared,
    first_words: FirstWords<'_>,
    entity: &Entity,
    best: Option<Refusal>,
) -> Option<Refusal>
    ensures { result ≡ least best
        (of_entity text.now declared.now (begins declared.now first_words.entry) entity.now) }
{
    let best = check_named(text, declared, entity, best);
    check_types(text, declared, first_words, entity.args.items(), best)
}

pub fn check_entities(
    text: &[u8],
    declared: &Declared,
    first_words: FirstWords<'_>,
    entities: &[Entity],
    best: Option<Refusal>,
) -> Option<Refusal>
    ensures { result ≡ walk
        (of_entity text.now declared.now (begins declared.now first_words.entry))
        best entities.now }
{
    entities.iter().fold(best, |b, e| check_entity(text, declared, first_words, e, b))
}

#[tactic(auto, using(crate::proofs::Walks::walked, crate::proofs::Walks::least_both))]
fn check_requirement(
    text: &[u8],
    declared: &Declared,
    first_words: FirstWords<'_>,
    requirement: &ReqDecl,
    best: Option<Refusal>,
) -> Option<Refusal>
    ensures { result ≡ least best
        (of_requirement text.now declared.now
        (begins declared.now first_words.entry) requirement.now) }
{
    match requirement {
        ReqDecl::Bound { subject, bounds } => {
            let best = check_type(text, declared, first_words, subject, best);
            check_entities(text, declared, first_words, bounds.items(), best)
        }
        ReqDecl::Same { left, right } => {
            let best = check_type(text, declared, first_words, left, best);
            check_type(text, declared, first_words, right, best)
        }
    }
}

pub fn check_requirements(
    text: &[u8],
    declared: &Declared,
    first_words: FirstWords<'_>,
    clause: &[ReqDecl],
    best: Option<Refusal>,
) -> Option<Refusal>
    ensures { result ≡ walk
        (of_requirement text.now declared.now (begins declared.now first_words.entry))
        best clause.now }
{
    clause.iter().fold(
        best,
        |b, r| check_requirement(text, declared, first_words, r, b),
    )
}
