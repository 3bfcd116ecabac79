//! Requirements and signatures.

ghost use Rattle.std.specs.{Prelude.{◌≡◌, ◌++◌, ⊤, map, IfOk, OnErr, OnOk}, List.{All}};
ghost use Rattle.swreq_lexicon.specs.swreq_derive.Facts.{generic_params, params_of_depth, requirement_of};
ghost use Rattle.swreq_lowering.specs.ByTable.{HasIdsOf};
ghost use Rattle.swreq_print.specs.{Types.{param_text}, Signatures.{requirement_text_in, requirement_text, self_text, signature_text, where_text}};

use crate::naming::protocol_name;
use crate::types::{ParamForm, put_param, put_type};
use std::alloc::{AllocError, Global};
use swreq_lexicon::Lexicon;
use swreq_lexicon::derive::{Params, Requirement};
use swreq_lexicon::param::{ParamId, ParamTable};
use swreq_text::{Print, append_bytes, put_joined};

fn put_requirement(
    alloc: Global,
    names: &Lexicon,
    table: &ParamTable,
    form: ParamForm,
    r: &Requirement,
    out: &mut Vec<u8>,
) -> Result<(), AllocError>
    requires { HasIdsOf table.now r.now }
    ensures { OnOk result (out.new.items
        ≡ out.old.items ++ requirement_text_in names.now form (requirement_of table.now r.now)) }
{
    match *r {
        Requirement::Conf { subject, proto } => {
            put_type(alloc, names, table, form, subject, out)?;
            append_bytes(out, b" : ")?;
            append_bytes(out, protocol_name(names, proto))
        }
        Requirement::Layout { subject } => {
            put_type(alloc, names, table, form, subject, out)?;
            append_bytes(out, b" : AnyObject")
        }
        Requirement::Same { left, right } => {
            put_type(alloc, names, table, form, left, out)?;
            append_bytes(out, b" == ")?;
            put_type(alloc, names, table, form, right, out)
        }
    }
}

/// What prints requirements over a table, with these names.
#[derive(Drop)]
struct Requirements<'a> {
    alloc: Global,
    names: &'a Lexicon,
    table: &'a ParamTable,
}

impl Print<Requirement> for Requirements<'_> {
    ghost text = { λ s r. requirement_text s.names.now (requirement_of s.table.now r) };

    ghost fits = { λ s r. HasIdsOf s.table.now r };

    #[tactic(auto, using(swreq_text::proofs::Grown::none_grew))]
    fn put(&self, out: &mut Vec<u8>, item: &Requirement) -> Result<(), AllocError> {
        requirement_text(self.alloc, self.names, self.table, item, out)
    }
}

// ` where ` and the requirements, where there are any.
fn put_where(
    alloc: Global,
    names: &Lexicon,
    table: &ParamTable,
    list: &[Requirement],
    out: &mut Vec<u8>,
) -> Result<(), AllocError>
    requires { All (HasIdsOf table.now) list.now }
    ensures { OnOk result (out.new.items
        ≡ out.old.items ++ where_text names.now (map (requirement_of table.now) list.now)) }
{
    match list {
        [] => Ok(()),
        [_, ..] => {
            append_bytes(out, b" where ")?;
            put_joined(
                out,
                &Requirements {
                    alloc,
                    names,
                    table,
                },
                b", ",
                list,
            )
        }
    }
}

fn add_params(depth: u32, count: u32, params: &mut Vec<ParamId>) -> Result<(), AllocError>
    ensures { OnOk result (params.new.items ≡ params.old.items ++ params_of_depth depth count) }
{
    for index in 0..count {
        params.push(ParamId { depth, index })?;
    }
    Ok(())
}

// The generic parameters, the outer ones first.
fn listed(alloc: Global, params: Params) -> Result<Vec<ParamId>, AllocError>
    ensures { IfOk result (λ v. v.items ≡ generic_params params) }
{
    let mut all = Vec::new(alloc);
    add_params(0, params.outer, &mut all)?;
    add_params(1, params.inner, &mut all)?;
    Ok(all)
}

/// Prints a generic parameter, as `τ_0_0`.
#[derive(Drop)]
struct Generics;

impl Print<ParamId> for Generics {
    ghost text = { λ _ g. param_text g };

    ghost fits = { λ _ _. ⊤ };

    fn put(&self, out: &mut Vec<u8>, item: &ParamId) -> Result<(), AllocError> {
        put_param(*item, out)
    }
}

/// Appends a requirement, as `T : P`, `T : AnyObject` or `T == U`.
pub fn requirement_text(
    alloc: Global,
    names: &Lexicon,
    table: &ParamTable,
    r: &Requirement,
    out: &mut Vec<u8>,
) -> Result<(), AllocError>
    requires { HasIdsOf table.now r.now }
    ensures ok { OnOk result (out.new.items
        ≡ out.old.items ++ requirement_text names.now (requirement_of table.now r.now)) }
    ensures err { OnErr result (out.new.items ≡ out.old.items) }
{
    let mut text = Vec::new(alloc);
    put_requirement(alloc, names, table, ParamForm::Signature, r, &mut text)?;
    append_bytes(out, &text)
}

/// Appends a requirement of a protocol, whose generic parameter is printed as `Self`: `Self.[P]A : Q`.
pub fn self_text(
    alloc: Global,
    names: &Lexicon,
    table: &ParamTable,
    r: &Requirement,
    out: &mut Vec<u8>,
) -> Result<(), AllocError>
    requires { HasIdsOf table.now r.now }
    ensures ok { OnOk result
        (out.new.items ≡ out.old.items ++ self_text names.now (requirement_of table.now r.now)) }
    ensures err { OnErr result (out.new.items ≡ out.old.items) }
{
    let mut text = Vec::new(alloc);
    put_requirement(alloc, names, table, ParamForm::Protocol, r, &mut text)?;
    append_bytes(out, &text)
}

/// Appends the signature with these generic parameters and requirements, as `<τ_0_0, τ_1_0 where τ_0_0 : P, τ_0_0 == τ_1_0>`.
pub fn signature_text(
    alloc: Global,
    names: &Lexicon,
    table: &ParamTable,
    params: Params,
    list: &[Requirement],
    out: &mut Vec<u8>,
) -> Result<(), AllocError>
    requires { All (HasIdsOf table.now) list.now }
    ensures ok { OnOk result (out.new.items ≡ out.old.items
        ++ signature_text names.now (generic_params params)
        (map (requirement_of table.now) list.now)) }
    ensures err { OnErr result (out.new.items ≡ out.old.items) }
{
    let mut text = Vec::new(alloc);
    append_bytes(&mut text, b"<")?;
    put_joined(&mut text, &Generics, b", ", &listed(alloc, params)?)?;
    put_where(alloc, names, table, list, &mut text)?;
    append_bytes(&mut text, b">")?;
    append_bytes(out, &text)
}
