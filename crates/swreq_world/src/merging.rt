// The signatures of a text in written order.
ghost use Rattle.std.specs.{Prelude.{◌≡◌, ◌+◌, ◌++◌, ◌<◌, ◌≤◌, ◌-◌, length, drop, IfOk, OnOk}, List.{prefix_len}};
ghost use Rattle.swreq_lexicon.specs.swreq_decl.Signatures.{stands_before};
ghost use Rattle.swreq_lowering.specs.Signatures.{functions_from, in_order, nested_from, with_nested};

use std::alloc::{AllocError, Global};
use swreq_lexicon::decl::{FunctionDecl, Skeleton, StructDecl};
use swreq_lexicon::names::Signature;

/// Whether a function stands before a struct.
fn stands_before(item: &StructDecl, function: &FunctionDecl) -> bool
    ensures { result ≡ stands_before item.now function.now }
{
    function.name.start < item.name.start
}

/// How many functions stand before a struct, from a place on.
fn count_before(item: &StructDecl, functions: &[FunctionDecl], from: usize) -> usize
    requires { from ≤ length functions.now }
    ensures count { result ≡ prefix_len (stands_before item.now) (drop from functions.now) }
    ensures within { from + result ≤ length functions.now }
{
    let mut at = from;
    while at < functions.len() {
        let f = &functions[at];
        if !stands_before(item, f) {
            return at - from;
        }
        at += 1;
    }
    at - from
}

/// Functions at the top, from a place on.
fn add_functions(from: usize, to: usize, order: &mut Vec<Signature>) -> Result<(), AllocError>
    requires { from ≤ to }
    ensures { OnOk result (order.new.items ≡ order.old.items ++ functions_from from (to - from)) }
{
    let mut at = from;
    while at < to {
        order.push(Signature::Function(at))?;
        at += 1;
    }
    Ok(())
}

/// Puts the functions of a struct last.
fn add_nested(outer: usize, count: usize, order: &mut Vec<Signature>) -> Result<(), AllocError>
    ensures { OnOk result (order.new.items ≡ order.old.items ++ nested_from outer 0 count) }
{
    let mut function = 0;
    while function < count {
        order.push(Signature::Nested { outer, function })?;
        function += 1;
    }
    Ok(())
}

/// Puts a struct last, and then its functions.
fn add_struct(place: usize, item: &StructDecl, order: &mut Vec<Signature>) -> Result<(), AllocError>
    ensures { OnOk result (order.new.items ≡ order.old.items ++ with_nested place item.now) }
{
    order.push(Signature::Struct(place))?;
    add_nested(place, item.functions.items().len(), order)
}

/// The signatures in written order, a struct before its functions.
pub fn in_order(alloc: Global, skeleton: &Skeleton) -> Result<Vec<Signature>, AllocError>
    ensures { IfOk result (λ order. order.items ≡ in_order skeleton.now) }
{
    let structs = skeleton.structs.items();
    let functions = skeleton.functions.items();
    let mut order = Vec::new(alloc);
    let mut at = 0;
    let mut i = 0;
    while i < structs.len() {
        let item = &structs[i];
        let next = at + count_before(item, functions, at);
        add_functions(at, next, &mut order)?;
        add_struct(i, item, &mut order)?;
        at = next;
        i += 1;
    }
    add_functions(at, functions.len(), &mut order)?;
    Ok(order)
}
