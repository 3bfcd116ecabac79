// The first name that is refused in queries.
ghost use Rattle.std.specs.Prelude.{◌≡◌};
ghost use Rattle.swreq_names.specs.Spaces.{word, struct_of};
ghost use Rattle.swreq_resolve.specs.{First.{least, walk}, Refusals.{begins_in_signature, of_ask, of_asked, of_nested_query, of_query}};

use crate::check::{FirstWords, check_entity, check_type};
use crate::refusal::{Fault, Refusal, noted};
use swreq_decl::{Ask, QueryDecl, Span};
use swreq_names::{Declared, Signature, word};

#[tactic(auto, using(crate::proofs::Walks::walked, crate::proofs::Walks::least_both))]
fn check_ask(
    text: &[u8],
    declared: &Declared,
    signature: Signature,
    ask: &Ask,
    best: Option<Refusal>,
) -> Option<Refusal>
    ensures { result ≡ least best
        (of_ask text.now declared.now (begins_in_signature declared.now signature) ask.now) }
{
    let first_words = FirstWords::Signature(signature);
    match ask {
        Ask::Signature => best,
        Ask::Reduced { t } => check_type(text, declared, first_words, t, best),
        Ask::Is { t, bound } => {
            let best = check_type(text, declared, first_words, t, best);
            check_entity(text, declared, first_words, bound, best)
        }
        Ask::Same { left, right } => {
            let best = check_type(text, declared, first_words, left, best);
            check_type(text, declared, first_words, right, best)
        }
    }
}

/// Checks a query on what was found. The rest of the query is looked at only where that is a signature.
fn check_asked(
    text: &[u8],
    declared: &Declared,
    query: &QueryDecl,
    found: Option<Signature>,
    best: Option<Refusal>,
) -> Option<Refusal>
    ensures { result ≡ least best (of_asked text.now declared.now query.now found) }
{
    match found {
        Some(signature) => check_ask(text, declared, signature, &query.ask, best),
        None => noted(best, true, Fault::UnknownSignature, query.function.start),
    }
}

/// Checks a query on a function of a struct.
fn check_nested_query(
    text: &[u8],
    declared: &Declared,
    query: &QueryDecl,
    outer: Span,
    best: Option<Refusal>,
) -> Option<Refusal>
    ensures { result ≡ least best
        (of_nested_query text.now declared.now query.now outer
        (struct_of declared.now (word text.now outer))) }
{
    match declared.struct_of(word(text, outer)) {
        Some(place) => {
            let found = declared.nested_in(place, word(text, query.function));
            check_asked(text, declared, query, found, best)
        }
        None => noted(best, true, Fault::UnknownSignature, outer.start),
    }
}

fn check_query(
    text: &[u8],
    declared: &Declared,
    query: &QueryDecl,
    best: Option<Refusal>,
) -> Option<Refusal>
    ensures { result ≡ least best (of_query text.now declared.now query.now) }
{
    match query.outer {
        Some(outer) => check_nested_query(text, declared, query, outer, best),
        None => {
            let found = declared.signature_of(word(text, query.function));
            check_asked(text, declared, query, found, best)
        }
    }
}

pub fn check_queries(
    text: &[u8],
    declared: &Declared,
    queries: &[QueryDecl],
    best: Option<Refusal>,
) -> Option<Refusal>
    ensures { result ≡ walk (of_query text.now declared.now) best queries.now }
{
    queries
        .iter()
        .fold(best, |b, q| check_query(text, declared, q, b))
}
