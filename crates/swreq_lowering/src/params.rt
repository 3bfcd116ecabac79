// The generic parameters of signatures.
ghost use Rattle.std.specs.Prelude.{◌≡◌, ◌<◌, ◌^◌, length, slice_get};
ghost use Rattle.swreq_lowering.specs.Signatures.{counts, depth_within, functions_of, outer_param_decls, own_depth, own_param_decls, params_of, params_of_function, params_of_struct};

use swreq_lexicon::decl::{FunctionDecl, ParamDecl, Skeleton, StructDecl};
use swreq_lexicon::derive::Params;
use swreq_lexicon::names::Signature;

/// The generic parameters of the struct at this place.
fn params_of_struct(structs: &[StructDecl], place: usize) -> &[ParamDecl]
    ensures { result.now ≡ params_of_struct (slice_get structs.now place) }
{
    match structs.get(place) {
        Some(item) => item.params.items(),
        None => &[],
    }
}

/// The functions of the struct at this place.
fn functions_of(structs: &[StructDecl], place: usize) -> &[FunctionDecl]
    ensures { result.now ≡ functions_of (slice_get structs.now place) }
{
    match structs.get(place) {
        Some(item) => item.functions.items(),
        None => &[],
    }
}

/// The generic parameters of the function at this place.
fn params_of_function(functions: &[FunctionDecl], place: usize) -> &[ParamDecl]
    ensures { result.now ≡ params_of_function (slice_get functions.now place) }
{
    match functions.get(place) {
        Some(function) => function.params.items(),
        None => &[],
    }
}

/// The generic parameters of the struct around a signature.
fn outer_param_decls(skeleton: &Skeleton, signature: Signature) -> &[ParamDecl]
    ensures { result.now ≡ outer_param_decls skeleton.now signature }
{
    match signature {
        Signature::Nested { outer, .. } => params_of_struct(skeleton.structs.items(), outer),
        _ => &[],
    }
}

/// The generic parameters of a signature itself.
fn own_param_decls(skeleton: &Skeleton, signature: Signature) -> &[ParamDecl]
    ensures { result.now ≡ own_param_decls skeleton.now signature }
{
    match signature {
        Signature::Struct(place) => params_of_struct(skeleton.structs.items(), place),
        Signature::Function(place) => params_of_function(skeleton.functions.items(), place),
        Signature::Nested { outer, function } => {
            params_of_function(functions_of(skeleton.structs.items(), outer), function)
        }
    }
}

/// The depth of generic parameters within these.
fn depth_within(params: &[ParamDecl]) -> u32
    ensures { result ≡ depth_within params.now }
{
    match params {
        [] => 0,
        _ => 1,
    }
}

/// The depth of a signature's own generic parameters: 1 where it is a function of a struct that has generic parameters, and
/// else 0.
pub fn own_depth(skeleton: &Skeleton, signature: Signature) -> u32
    ensures { result ≡ own_depth skeleton.now signature }
{
    depth_within(outer_param_decls(skeleton, signature))
}

/// How many generic parameters have depth 0 and depth 1.
fn counts(outer: &[ParamDecl], own: &[ParamDecl]) -> Params
    requires outer { length outer.now < 2 ^ 32 }
    requires own { length own.now < 2 ^ 32 }
    ensures { result ≡ counts outer.now own.now }
{
    match outer {
        [] => Params {
            outer: own.len() as u32,
            inner: 0,
        },
        _ => Params {
            outer: outer.len() as u32,
            inner: own.len() as u32,
        },
    }
}

/// The generic parameters of a signature. Those of a struct have depth 0. Those of its functions have depth 1 where the struct
/// has some, and otherwise depth 0.
pub fn params_of(skeleton: &Skeleton, signature: Signature) -> Params
    requires outer { length (outer_param_decls skeleton.now signature) < 2 ^ 32 }
    requires own { length (own_param_decls skeleton.now signature) < 2 ^ 32 }
    ensures { result ≡ params_of skeleton.now signature }
{
    counts(
        outer_param_decls(skeleton, signature),
        own_param_decls(skeleton, signature),
    )
}
