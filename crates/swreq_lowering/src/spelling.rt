// Written types as type parameters of a table.
ghost use Rattle.std.specs.Prelude.{◌≡◌, IfOk, map};
ghost use Rattle.swreq_param.specs.{Terms.{with_steps}, Tables.{Extends, IsOf, term_at}};
ghost use Rattle.swreq_lowering.specs.{Adding.{Spells}, Types.{head_in, protocol_head, signature_head, step_of, type_in}, Words.{words_by}};

use crate::context::Context;
use crate::lookups::{name_of, param_named, step_of};
use crate::words::Words;
use std::alloc::AllocError;
use swreq_lexicon::decl::{Span, StepDecl, TypeDecl};
use swreq_lexicon::names::{Signature, word};
use swreq_param::{ParamId, ParamTable, Step, TermId};

/// `τ_0_0`, which is `Self` in the requirements of a protocol.
pub const SELF: ParamId = ParamId { depth: 0, index: 0 };

/// The type parameter that a type stands for where it is written.
#[tactic(auto, using(swreq_param::proofs::Growing::onward))]
pub fn spell(
    table: &mut ParamTable,
    words: &Words<'_>,
    context: Context,
    written_type: &TypeDecl,
) -> Result<TermId, AllocError>
    ensures spells { IfOk result
        (Spells table.old table.new (type_in (words_by words.now) context written_type.now)) }
    ensures extends { Extends table.old table.new }
{
    let head = spell_head(table, words, context, written_type.head)?;
    spell_steps(table, words, head, written_type.steps.items())
}

/// The first word of a type.
fn spell_head(
    table: &mut ParamTable,
    words: &Words<'_>,
    context: Context,
    head: Span,
) -> Result<TermId, AllocError>
    ensures spells { IfOk result
        (Spells table.old table.new (head_in (words_by words.now) context head)) }
    ensures extends { Extends table.old table.new }
{
    match context {
        Context::Protocol => spell_protocol_head(table, words, head),
        Context::Signature(signature) => spell_signature_head(table, words, signature, head),
    }
}

#[tactic(auto, using(swreq_param::proofs::Growing::onward))]
fn spell_protocol_head(
    table: &mut ParamTable,
    words: &Words<'_>,
    head: Span,
) -> Result<TermId, AllocError>
    ensures spells { IfOk result
        (Spells table.old table.new (protocol_head (words_by words.now) head)) }
    ensures extends { Extends table.old table.new }
{
    let base = table.param(SELF)?;
    if b"Self".as_slice() == word(words.text, head) {
        Ok(base)
    } else {
        table.member(base, Step::Name(name_of(words, head)))
    }
}

fn spell_signature_head(
    table: &mut ParamTable,
    words: &Words<'_>,
    signature: Signature,
    head: Span,
) -> Result<TermId, AllocError>
    ensures spells { IfOk result
        (Spells table.old table.new (signature_head (words_by words.now) signature head)) }
    ensures extends { Extends table.old table.new }
{
    match param_named(words, signature, word(words.text, head)) {
        Some(param) => table.param(param),
        None => table.param(SELF),
    }
}

/// A type parameter with the steps at its end.
#[tactic(auto, using(swreq_param::proofs::Growing::onward))]
fn spell_steps(
    table: &mut ParamTable,
    words: &Words<'_>,
    base: TermId,
    steps: &[StepDecl],
) -> Result<TermId, AllocError>
    requires { IsOf table.old base }
    ensures spells { IfOk result (Spells table.old table.new
        (with_steps (term_at table.old base) (map (step_of (words_by words.now)) steps.now))) }
    ensures extends { Extends table.old table.new }
{
    let mut id = base;
    for step in steps {
        id = table.member(id, step_of(words, step))?;
    }
    Ok(id)
}
