// The signatures of a text, each with what is written in itself.
ghost use Rattle.std.specs.Prelude.{◌≡◌, slice_get, map, IfOk};
ghost use Rattle.swreq_param.specs.Tables.{Extends};
ghost use Rattle.swreq_world.specs.{Entries.{IsEntryOf, entry_meant, FillsEntries}, Own.{of_inner, own_list, own_signature}, Text.{function_name, name_of, of_function, of_struct, outer_of, struct_name}};
ghost use Rattle.swreq_lowering.specs.{Adding.{Lists}, Short.{HasShortLists}, Signatures.{functions_of}, Words.{words_by}};

use crate::entry::Entry;
use crate::order::Order;
use std::alloc::{AllocError, Global};
use swreq_lexicon::decl::{FunctionDecl, StructDecl};
use swreq_lexicon::names::{Signature, word};
use swreq_lowering::{
    FuncId, Words, Written, of_function, of_nested, of_struct, own_depth, params_of,
};
use swreq_param::ParamTable;
use swreq_text::Seq;

fn struct_name<'a>(words: &Words<'a>, place: usize) -> &'a [u8]
    ensures { result.now
        ≡ struct_name (words_by words.now) (slice_get words.now.skeleton.now.structs place) }
{
    match words.skeleton.structs.items().get(place) {
        Some(s) => word(words.text, s.name),
        None => &[],
    }
}

fn function_name<'a>(words: &Words<'a>, functions: &[FunctionDecl], place: usize) -> &'a [u8]
    ensures { result.now ≡ function_name (words_by words.now) (slice_get functions.now place) }
{
    match functions.get(place) {
        Some(f) => word(words.text, f.name),
        None => &[],
    }
}

fn functions_of(structs: &[StructDecl], place: usize) -> &[FunctionDecl]
    ensures { result.now ≡ functions_of (slice_get structs.now place) }
{
    match structs.get(place) {
        Some(s) => s.functions.items(),
        None => &[],
    }
}

/// The name of a signature.
fn name_of<'a>(words: &Words<'a>, signature: Signature) -> &'a [u8]
    ensures { result.now ≡ name_of (words_by words.now) signature }
{
    match signature {
        Signature::Struct(place) => struct_name(words, place),
        Signature::Function(place) => function_name(words, words.skeleton.functions.items(), place),
        Signature::Nested { outer, function } => {
            let functions = functions_of(words.skeleton.structs.items(), outer);
            function_name(words, functions, function)
        }
    }
}

/// The struct around a signature.
fn outer_of(order: &Order, signature: Signature) -> Option<FuncId>
    ensures { result ≡ outer_of order.now signature }
{
    match signature {
        Signature::Nested { outer, .. } => Some(order.func_id(Signature::Struct(outer))),
        _ => None,
    }
}

fn list_of_struct(
    alloc: Global,
    table: &mut ParamTable,
    words: &Words<'_>,
    place: usize,
) -> Result<Vec<Written>, AllocError>
    requires { HasShortLists words.now.text.now words.now.skeleton.now }
    ensures lists { IfOk result (λ v. Lists table.old table.new (of_struct (words_by words.now)
        place (slice_get words.now.skeleton.now.structs place)) v.items) }
    ensures extends { Extends table.old table.new }
{
    match words.skeleton.structs.items().get(place) {
        Some(s) => of_struct(alloc, table, words, place, s),
        None => Ok(Vec::new(alloc)),
    }
}

fn list_of_function(
    alloc: Global,
    table: &mut ParamTable,
    words: &Words<'_>,
    place: usize,
) -> Result<Vec<Written>, AllocError>
    requires { HasShortLists words.now.text.now words.now.skeleton.now }
    ensures lists { IfOk result (λ v. Lists table.old table.new (of_function (words_by words.now)
        place (slice_get words.now.skeleton.now.functions place)) v.items) }
    ensures extends { Extends table.old table.new }
{
    match words.skeleton.functions.items().get(place) {
        Some(f) => of_function(alloc, table, words, place, f),
        None => Ok(Vec::new(alloc)),
    }
}

fn list_of_nested(
    alloc: Global,
    table: &mut ParamTable,
    words: &Words<'_>,
    outer: usize,
    function: usize,
) -> Result<Vec<Written>, AllocError>
    requires { HasShortLists words.now.text.now words.now.skeleton.now }
    ensures lists { IfOk result
        (λ v. Lists table.old table.new (of_inner (words_by words.now) outer function (slice_get
        (functions_of (slice_get words.now.skeleton.now.structs outer)) function)) v.items) }
    ensures extends { Extends table.old table.new }
{
    match words.skeleton.structs.items().get(outer) {
        Some(s) => match s.functions.items().get(function) {
            Some(f) => of_nested(alloc, table, words, outer, function, f),
            None => Ok(Vec::new(alloc)),
        },
        None => Ok(Vec::new(alloc)),
    }
}

/// What is written in a signature itself.
fn own_list(
    alloc: Global,
    table: &mut ParamTable,
    words: &Words<'_>,
    signature: Signature,
) -> Result<Vec<Written>, AllocError>
    requires { HasShortLists words.now.text.now words.now.skeleton.now }
    ensures lists { IfOk result
        (λ v. Lists table.old table.new (own_list (words_by words.now) signature) v.items) }
    ensures extends { Extends table.old table.new }
{
    match signature {
        Signature::Struct(place) => list_of_struct(alloc, table, words, place),
        Signature::Function(place) => list_of_function(alloc, table, words, place),
        Signature::Nested { outer, function } => {
            list_of_nested(alloc, table, words, outer, function)
        }
    }
}

/// A signature with its own requirements.
fn entry(
    alloc: Global,
    table: &mut ParamTable,
    words: &Words<'_>,
    order: &Order,
    signature: Signature,
) -> Result<Entry, AllocError>
    requires { HasShortLists words.now.text.now words.now.skeleton.now }
    ensures extends { Extends table.old table.new }
    ensures of { IfOk result (IsEntryOf table.new) }
    ensures means { IfOk result
        (λ e. entry_meant table.new e ≡ own_signature (words_by words.now) order.now signature) }
{
    let own = own_list(alloc, table, words, signature)?;
    Ok(Entry {
        signature,
        name: Seq::new(name_of(words, signature).to_vec(alloc)?),
        outer: outer_of(order, signature),
        own_depth: own_depth(words.skeleton, signature),
        params: params_of(words.skeleton, signature),
        own: Seq::new(own),
    })
}

/// The signatures in written order, each with its own requirements.
#[tactic(auto, using(swreq_param::proofs::Growing::onward))]
pub fn entries(
    alloc: Global,
    table: &mut ParamTable,
    words: &Words<'_>,
    order: &Order,
) -> Result<Vec<Entry>, AllocError>
    requires { HasShortLists words.now.text.now words.now.skeleton.now }
    ensures fills { IfOk result (λ v. FillsEntries table.old table.new
        (map (own_signature (words_by words.now) order.now) order.now) v.items) }
    ensures extends { Extends table.old table.new }
{
    let mut made = Vec::new(alloc);
    for g in order.signatures() {
        let entry = entry(alloc, table, words, order, *g)?;
        made.push(entry)?;
    }
    Ok(made)
}
