//! The first name of calls that is refused.
ghost use Rattle.std.specs.Prelude.{◌≡◌, None, Some};
ghost use Rattle.swreq_resolve.specs.swreq_names.Spaces.{struct_of, word};
ghost use Rattle.swreq_resolve.specs.First as order;
ghost use Rattle.swreq_resolve.specs.{First.{least, walk, when}, RefusedTypes.{of_type_on}, Refusals.{of_nested_query}};
ghost use Rattle.swreq_subst.specs.{Arguments.{param_count}, Refusals.{declared, func_called, of_call, of_count, of_name, of_types, query_on, refusals, signature_called}};

use crate::words::Words;
use swreq_machine::derive::Params;
use swreq_print::decl::{CallDecl, Span, TypeDecl};
use swreq_print::lowering::FuncId;
use swreq_print::names::{Declared, Signature, word};
use swreq_resolve::{Fault, Refusal, resolve_type};

/// The first of what was refused before and this one.
fn earlier(best: Option<Refusal>, here: Refusal) -> Option<Refusal>
    ensures { result ≡ order.earlier best here }
{
    match best {
        Some(first) => Some(if here.precedes(first) { here } else { first }),
        None => Some(here),
    }
}

/// The first of what was refused before and, where the fault is there, of the name at this offset.
fn noted(best: Option<Refusal>, is_there: bool, fault: Fault, at: u32) -> Option<Refusal>
    ensures { result ≡ least best (when is_there fault at) }
{
    if !is_there {
        return best;
    }
    earlier(best, Refusal { fault, at })
}

/// Refuses the name of a signature after the name of a struct, where there is no such struct or no such function in it.
fn check_nested(
    d: &Declared,
    text: &[u8],
    outer: Span,
    name: Span,
    best: Option<Refusal>,
) -> Option<Refusal>
    ensures { result ≡ least best (of_nested_query text.now d.now (query_on (Some outer) name) outer
        (struct_of d.now (word text.now outer))) }
{
    match d.struct_of(word(text, outer)) {
        Some(place) => match d.nested_in(place, word(text, name)) {
            Some(_) => best,
            None => noted(best, true, Fault::UnknownSignature, name.start),
        },
        None => noted(best, true, Fault::UnknownSignature, outer.start),
    }
}

/// Refuses the name of a signature, where there is no such signature.
fn check_name(
    words: &Words<'_>,
    outer: Option<Span>,
    name: Span,
    best: Option<Refusal>,
) -> Option<Refusal>
    ensures { result ≡ least best (of_name words.now.world.now words.now.text.now outer name) }
{
    let d = words.world.lexicon().resolved().declared();
    match outer {
        Some(outer) => check_nested(d, words.text, outer, name, best),
        None => match d.signature_of(word(words.text, name)) {
            Some(_) => best,
            None => noted(best, true, Fault::UnknownSignature, name.start),
        },
    }
}

/// The signature that a call names, or None where no signature has the name. `outer` is the name of the struct around it.
fn signature_called(words: &Words<'_>, outer: Option<Span>, name: Span) -> Option<Signature>
    ensures { result ≡ signature_called words.now.world.now words.now.text.now outer name }
{
    let names = words.world.lexicon().resolved();
    match outer {
        Some(outer) => names.find_nested(word(words.text, outer), word(words.text, name)),
        None => names.find_signature(word(words.text, name)),
    }
}

/// The id of the signature that a call names, or None where no signature has the name.
pub(crate) fn func_called(words: &Words<'_>, outer: Option<Span>, name: Span) -> Option<FuncId>
    ensures { result ≡ func_called words.now.world.now words.now.text.now outer name }
{
    match outer {
        Some(outer) => words
            .world
            .find_func(Some(word(words.text, outer)), word(words.text, name)),
        None => words.world.find_func(None, word(words.text, name)),
    }
}

/// The number of generic parameters: those of the struct around a signature, and its own.
fn param_count(params: Params) -> usize
    ensures { result ≡ param_count params }
{
    params.outer as usize + params.inner as usize
}

/// Refuses a callee whose generic parameters are not as many as the types of the call.
fn check_count(words: &Words<'_>, c: &CallDecl, best: Option<Refusal>) -> Option<Refusal>
    ensures { result ≡ least best (of_count words.now.world.now words.now.text.now
        (func_called words.now.world.now words.now.text.now c.now.callee_outer c.now.callee)
        c.now) }
{
    match func_called(words, c.callee_outer, c.callee) {
        Some(g) => {
            let wrong = c.args.items().len() != param_count(words.world.params(g));
            noted(best, wrong, Fault::WrongArity, c.callee.start)
        }
        None => best,
    }
}

/// Refuses a type whose names do not resolve in the signature.
fn check_type(
    d: &Declared,
    signature: Signature,
    text: &[u8],
    t: &TypeDecl,
    best: Option<Refusal>,
) -> Option<Refusal>
    ensures { result ≡ least best (of_type_on d.now signature text.now t.now) }
{
    match resolve_type(d, signature, text, t) {
        Ok(()) => best,
        Err(r) => earlier(best, r),
    }
}

/// Refuses types whose names do not resolve in the signature.
fn check_types_on(
    d: &Declared,
    signature: Signature,
    text: &[u8],
    types: &[TypeDecl],
    best: Option<Refusal>,
) -> Option<Refusal>
    ensures { result ≡ walk (of_type_on d.now signature text.now) best types.now }
{
    types
        .iter()
        .fold(best, |b, t| check_type(d, signature, text, t, b))
}

/// Refuses names in the types of a call. They are looked at only where the caller is a signature.
#[tactic(auto, using(swreq_resolve::proofs::Walks::walked))]
fn check_types(words: &Words<'_>, c: &CallDecl, best: Option<Refusal>) -> Option<Refusal>
    ensures { result ≡ least best (of_types words.now.world.now words.now.text.now
        (signature_called words.now.world.now words.now.text.now c.now.caller_outer c.now.caller)
        c.now.args) }
{
    match signature_called(words, c.caller_outer, c.caller) {
        Some(signature) => {
            let d = words.world.lexicon().resolved().declared();
            check_types_on(d, signature, words.text, c.args.items(), best)
        }
        None => best,
    }
}

#[tactic(auto, using(swreq_resolve::proofs::Walks::least_both))]
fn check_call(words: &Words<'_>, c: &CallDecl, best: Option<Refusal>) -> Option<Refusal>
    ensures { result ≡ least best (of_call words.now.world.now words.now.text.now c.now) }
{
    let best = check_name(words, c.caller_outer, c.caller, best);
    let best = check_name(words, c.callee_outer, c.callee, best);
    let best = check_count(words, c, best);
    check_types(words, c, best)
}

/// The first name of these calls that is refused.
pub(crate) fn first_refusal(words: &Words<'_>, calls: &[CallDecl]) -> Option<Refusal>
    ensures { result ≡ least None (refusals words.now.world.now words.now.text.now calls.now) }
{
    let mut best = None;
    for k in 0..calls.len() {
        let call = &calls[k];
        best = check_call(words, call, best);
    }
    best
}
