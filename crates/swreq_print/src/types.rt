//! Type parameters.

ghost use Rattle.std.specs.Prelude.{◌≡◌, ◌++◌, codes, OnErr, OnOk};
ghost use Rattle.swreq_lexicon.specs.swreq_param.{Owned.{as_term}, Tables.{IsOf, term_at}};
ghost use Rattle.swreq_text.specs.Joined.{GrewByPart};
ghost use Rattle.swreq_print.specs.Types.{bound_text, head_text, param_text, step_text, steps_text, type_text_in, type_text};

use crate::naming::{name_text, pair_at, protocol_name};
use std::alloc::{AllocError, Global};
use swreq_lexicon::param::{ParamId, ParamTable, Step, TermId, TypeParam};
use swreq_lexicon::{Lexicon, ProtocolName};
use swreq_text::{append_bytes, append_number};

/// How a generic parameter is printed, by where it stands.
#[derive(Clone, Copy)]
pub(crate) enum ParamForm {
    /// In a signature: `τ_d_i`.
    Signature,
    /// In a protocol: `Self`.
    Protocol,
}

/// `τ_` in UTF-8.
const TAU: &str = "τ_";

/// Writes a generic parameter at the end. If memory runs out the first bytes of its text may stand there.
#[tactic(auto, using(swreq_text::proofs::Grown::none_grew, swreq_text::proofs::Grown::grew_next))]
pub(crate) fn put_param(param: ParamId, out: &mut Vec<u8>) -> Result<(), AllocError>
    ensures ok { OnOk result (out.new.items ≡ out.old.items ++ param_text param) }
    ensures err { OnErr result (GrewByPart out.old.items (param_text param) out.new.items) }
{
    append_bytes(out, TAU.as_bytes())?;
    append_number(out, param.depth as u64)?;
    append_bytes(out, b"_")?;
    append_number(out, param.index as u64)
}

// `.[P]A`
fn put_bound(names: &Lexicon, pair: ProtocolName, out: &mut Vec<u8>) -> Result<(), AllocError>
    ensures { OnOk result
        (out.new.items ≡ out.old.items ++ (codes "." ++ bound_text names.now pair)) }
{
    append_bytes(out, b".[")?;
    append_bytes(out, protocol_name(names, pair.proto))?;
    append_bytes(out, b"]")?;
    append_bytes(out, name_text(names, pair.name))
}

fn put_step(names: &Lexicon, step: Step, out: &mut Vec<u8>) -> Result<(), AllocError>
    ensures { OnOk result (out.new.items ≡ out.old.items ++ step_text names.now step) }
{
    match step {
        Step::Bound(assoc) => put_bound(names, pair_at(names, assoc), out),
        Step::Name(name) => {
            append_bytes(out, b".")?;
            append_bytes(out, name_text(names, name))
        }
    }
}

fn put_steps(names: &Lexicon, steps: &[Step], out: &mut Vec<u8>) -> Result<(), AllocError>
    ensures { OnOk result (out.new.items ≡ out.old.items ++ steps_text names.now steps.now) }
{
    for step in steps {
        put_step(names, *step, out)?;
    }
    Ok(())
}

fn put_head(form: ParamForm, param: ParamId, out: &mut Vec<u8>) -> Result<(), AllocError>
    ensures { OnOk result (out.new.items ≡ out.old.items ++ head_text form param) }
{
    match form {
        ParamForm::Signature => put_param(param, out),
        ParamForm::Protocol => append_bytes(out, b"Self"),
    }
}

fn put_owned(
    names: &Lexicon,
    form: ParamForm,
    t: &TypeParam,
    out: &mut Vec<u8>,
) -> Result<(), AllocError>
    ensures { OnOk result
        (out.new.items ≡ out.old.items ++ type_text_in names.now form (as_term t.now)) }
{
    put_head(form, t.head, out)?;
    put_steps(names, t.steps.items(), out)
}

pub(crate) fn put_type(
    alloc: Global,
    names: &Lexicon,
    table: &ParamTable,
    form: ParamForm,
    t: TermId,
    out: &mut Vec<u8>,
) -> Result<(), AllocError>
    requires { IsOf table.now t }
    ensures { OnOk result
        (out.new.items ≡ out.old.items ++ type_text_in names.now form (term_at table.now t)) }
{
    let owned = table.owned(alloc, t)?;
    put_owned(names, form, &owned, out)
}

/// Appends the type parameter with this generic parameter and these steps, as `τ_0_0.[P]A.B`.
pub fn steps_text(
    alloc: Global,
    names: &Lexicon,
    head: ParamId,
    steps: &[Step],
    out: &mut Vec<u8>,
) -> Result<(), AllocError>
    ensures ok { OnOk result
        (out.new.items ≡ out.old.items ++ param_text head ++ steps_text names.now steps.now) }
    ensures err { OnErr result (out.new.items ≡ out.old.items) }
{
    let mut text = Vec::new(alloc);
    put_param(head, &mut text)?;
    put_steps(names, steps, &mut text)?;
    append_bytes(out, &text)
}

/// Appends a type parameter of the table, as `τ_0_0.[P]A.B`: its generic parameter `τ_d_i` of depth d and index i, and for
/// each member a dot and its name, after the protocol in brackets where it is bound.
pub fn type_text(
    alloc: Global,
    names: &Lexicon,
    table: &ParamTable,
    t: TermId,
    out: &mut Vec<u8>,
) -> Result<(), AllocError>
    requires { IsOf table.now t }
    ensures ok { OnOk result
        (out.new.items ≡ out.old.items ++ type_text names.now (term_at table.now t)) }
    ensures err { OnErr result (out.new.items ≡ out.old.items) }
{
    let mut text = Vec::new(alloc);
    put_type(alloc, names, table, ParamForm::Signature, t, &mut text)?;
    append_bytes(out, &text)
}
