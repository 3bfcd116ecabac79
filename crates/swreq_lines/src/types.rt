//! Reading type parameters.

ghost use Rattle.std.specs.{Prelude.{◌≡◌, IfOk, List}, List.{AllByRecursion}};
ghost use Rattle.swreq_print.specs.swreq_lowering.OfText.{IsStepOf};
ghost use Rattle.swreq_print.specs.swreq_param.{declared.ids.ParamId.{ParamId}, declared.ids.Step.{Step}, Owned.{as_term}, Terms.{Term}};
ghost use Rattle.swreq_print.specs.{Reading.{HasNumbers, IsReadableType}, Types.{param_text, step_text, steps_text, type_text}};
ghost use Rattle.swreq_lines.specs.Pieces.{behind};

use crate::named::{associated, name_named, protocol_named};
use crate::numbers::read_number;
use crate::pieces::next_piece;
use crate::reader::Reader;
use std::alloc::AllocError;
use swreq_print::param::{ParamId, Step, TypeParam};
use swreq_text::Seq;

/// The generic parameter that is written as `τ_d_i`.
fn read_param(text: &[u8]) -> ParamId
    ensures { (g : ParamId) → HasNumbers g → text.now ≡ param_text g → result ≡ g }
{
    let tau = next_piece(text, b'_');
    let depth = next_piece(tau.rest, b'_');
    ParamId {
        depth: read_number(depth.piece),
        index: read_number(depth.rest),
    }
}

/// The step that is written as `A` or `[P]A`.
fn read_step(reader: &Reader, text: &[u8]) -> Step
    ensures { (s : Step) → IsStepOf reader.now.names.now s
        → text.now ≡ behind (step_text reader.now.names.now s) → result ≡ s }
{
    let bracket = next_piece(text, b'[');
    if bracket.piece.is_empty() {
        let proto = next_piece(bracket.rest, b']');
        let p = protocol_named(reader, proto.piece);
        let a = name_named(reader, proto.rest);
        return Step::Bound(associated(reader, p, a));
    }
    Step::Name(name_named(reader, text))
}

/// The steps that are written one after the other, with a dot between each two.
fn read_steps(reader: &Reader, text: &[u8]) -> Result<Vec<Step>, AllocError>
    ensures { (steps : List Step) → AllByRecursion (IsStepOf reader.now.names.now) steps
        → text.now ≡ behind (steps_text reader.now.names.now steps)
        → IfOk result (λ v. v.items ≡ steps) }
{
    let mut steps = Vec::new(reader.alloc);
    let mut rest = text;
    while !rest.is_empty() {
        let next = next_piece(rest, b'.');
        steps.push(read_step(reader, next.piece))?;
        rest = next.rest;
    }
    Ok(steps)
}

/// The type parameter that is written as `τ_0_0.[P]A.B`.
pub(crate) fn read_type(reader: &Reader, text: &[u8]) -> Result<TypeParam, AllocError>
    ensures { (t : Term) → IsReadableType reader.now.names.now t
        → text.now ≡ type_text reader.now.names.now t → IfOk result (λ p. as_term p ≡ t) }
{
    let head = next_piece(text, b'.');
    let steps = read_steps(reader, head.rest)?;
    Ok(TypeParam {
        head: read_param(head.piece),
        steps: Seq::new(steps),
    })
}
