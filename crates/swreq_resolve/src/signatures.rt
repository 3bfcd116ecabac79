// The first name that is refused in structs and functions.
ghost use Rattle.std.specs.Prelude.{◌≡◌};
ghost use Rattle.swreq_resolve.specs.{First.{least, walk}, Refusals.{by_place, of_signatures, of_param, of_signature, of_nested, of_struct, of_function}, FirstWords.{begins}};

use crate::check::{FirstWords, check_duplicates, check_entities, check_requirements};
use crate::refusal::Refusal;
use swreq_decl::{FunctionDecl, ParamDecl, ReqDecl, Skeleton, StructDecl};
use swreq_names::{Declared, Signature};

#[tactic(auto, using(crate::proofs::Walks::walked))]
fn check_param(
    text: &[u8],
    declared: &Declared,
    first_words: FirstWords<'_>,
    param: &ParamDecl,
    best: Option<Refusal>,
) -> Option<Refusal>
    ensures { result ≡ least best
        (of_param text.now declared.now (begins declared.now first_words.entry) param.now) }
{
    check_entities(text, declared, first_words, param.bounds.items(), best)
}

fn check_params(
    text: &[u8],
    declared: &Declared,
    first_words: FirstWords<'_>,
    params: &[ParamDecl],
    best: Option<Refusal>,
) -> Option<Refusal>
    ensures { result ≡ walk
        (of_param text.now declared.now (begins declared.now first_words.entry)) best params.now }
{
    params.iter().fold(best, |b, p| check_param(text, declared, first_words, p, b))
}

/// Checks the generic parameters and requirements of a signature.
#[tactic(auto, using(crate::proofs::Walks::walked, crate::proofs::Walks::least_both))]
fn check_signature(
    text: &[u8],
    declared: &Declared,
    signature: Signature,
    params: &[ParamDecl],
    clause: &[ReqDecl],
    best: Option<Refusal>,
) -> Option<Refusal>
    ensures { result ≡ least best
        (of_signature text.now declared.now signature params.now clause.now) }
{
    let first_words = FirstWords::Signature(signature);
    let own = declared.own_params(signature);
    let best = check_duplicates(own, own.items(), best);
    let best = check_duplicates(declared.outer_params(signature), own.items(), best);
    let best = check_params(text, declared, first_words, params, best);
    check_requirements(text, declared, first_words, clause, best)
}

fn check_function(
    text: &[u8],
    declared: &Declared,
    place: usize,
    declaration: &FunctionDecl,
    best: Option<Refusal>,
) -> Option<Refusal>
    ensures { result ≡ least best (of_function text.now declared.now place declaration.now) }
{
    check_signature(
        text,
        declared,
        Signature::Function(place),
        declaration.params.items(),
        declaration.clause.items(),
        best,
    )
}

fn check_functions(
    text: &[u8],
    declared: &Declared,
    functions: &[FunctionDecl],
    best: Option<Refusal>,
) -> Option<Refusal>
    ensures { result ≡ least best (by_place (of_function text.now declared.now) 0 functions.now) }
{
    let mut best = best;
    for (i, f) in functions.iter().enumerate() {
        best = check_function(text, declared, i, f, best);
    }
    best
}

fn check_nested(
    text: &[u8],
    declared: &Declared,
    outer: usize,
    function: usize,
    declaration: &FunctionDecl,
    best: Option<Refusal>,
) -> Option<Refusal>
    ensures { result ≡ least best (of_nested text.now declared.now outer function declaration.now) }
{
    check_signature(
        text,
        declared,
        Signature::Nested { outer, function },
        declaration.params.items(),
        declaration.clause.items(),
        best,
    )
}

/// Checks the functions of a struct.
fn check_all_nested(
    text: &[u8],
    declared: &Declared,
    outer: usize,
    functions: &[FunctionDecl],
    best: Option<Refusal>,
) -> Option<Refusal>
    ensures { result ≡ least best
        (by_place (of_nested text.now declared.now outer) 0 functions.now) }
{
    let mut best = best;
    for (j, f) in functions.iter().enumerate() {
        best = check_nested(text, declared, outer, j, f, best);
    }
    best
}

#[tactic(auto, using(crate::proofs::Walks::walked, crate::proofs::Walks::least_both))]
fn check_struct(
    text: &[u8],
    declared: &Declared,
    place: usize,
    declaration: &StructDecl,
    best: Option<Refusal>,
) -> Option<Refusal>
    ensures { result ≡ least best (of_struct text.now declared.now place declaration.now) }
{
    let signature = Signature::Struct(place);
    let nested = declared.nested(place);
    let best = check_signature(
        text,
        declared,
        signature,
        declaration.params.items(),
        declaration.clause.items(),
        best,
    );
    let best = check_duplicates(nested, nested.items(), best);
    check_all_nested(text, declared, place, declaration.functions.items(), best)
}

fn check_structs(
    text: &[u8],
    declared: &Declared,
    structs: &[StructDecl],
    best: Option<Refusal>,
) -> Option<Refusal>
    ensures { result ≡ least best (by_place (of_struct text.now declared.now) 0 structs.now) }
{
    let mut best = best;
    for (i, s) in structs.iter().enumerate() {
        best = check_struct(text, declared, i, s, best);
    }
    best
}

/// Checks the structs and the functions at the top.
#[tactic(auto, using(crate::proofs::Walks::least_both))]
pub fn check_signatures(
    text: &[u8],
    declared: &Declared,
    skeleton: &Skeleton,
    best: Option<Refusal>,
) -> Option<Refusal>
    ensures { result ≡ least best (of_signatures text.now declared.now skeleton.now) }
{
    let best = check_structs(text, declared, skeleton.structs.items(), best);
    check_functions(text, declared, skeleton.functions.items(), best)
}
