//! The type parameter that a written type is.
ghost use Rattle.std.specs.{Prelude.{◌≡◌, ◌<◌, [], IfOk, MatchOption, length}, List.{flat_map}, Option.{option_map}};
ghost use Rattle.swreq_machine.specs.swreq_param.Tables.{Extends, term_at};
ghost use Rattle.swreq_resolve.specs.swreq_decl.declared.skeleton.StepDecl.TheVariants.{Bound};
ghost use Rattle.swreq_resolve.specs.swreq_names.Spaces.{protocol_of, word};
ghost use Rattle.swreq_resolve.specs.{RefusedTypes.{of_type_on}, Refusals.{of_bound, of_step}};
ghost use Rattle.swreq_machine.specs.swreq_world.{ReadBack.{SaySteps, SaysStep}, Worlds.{signature_at}};
ghost use Rattle.swreq_subst.specs.{Calls.{IsArgumentIn}, Refusals.{declared}, Saying.{HasUnknown, IsUnknown, SaysArgument}};

use crate::arguments::followed;
use crate::words::Words;
use std::alloc::{AllocError, Global};
use swreq_machine::param::{ParamTable, Step, TermId};
use swreq_print::decl::{Span, StepDecl, TypeDecl};
use swreq_print::lowering::FuncId;
use swreq_print::names::word;

/// `.[P]A`, where P declares A.
fn bound_step(words: &Words<'_>, proto: Span, name: Span) -> Step
    requires { of_bound words.now.text.now (declared words.now.world.now) proto name
        (protocol_of (declared words.now.world.now) (word words.now.text.now proto)) ≡ [] }
    ensures { SaysStep words.now.text.now words.now.world.now.lexicon result (Bound proto name) }
{
    let lexicon = words.world.lexicon();
    let p = lexicon.proto_id(word(words.text, proto));
    let a = lexicon.name_id(word(words.text, name));
    Step::Bound(lexicon.assoc_id(p, a))
}

/// A step, or None where it is a name that the world lacks.
fn step_of(words: &Words<'_>, s: &StepDecl) -> Option<Step>
    requires { of_step words.now.text.now (declared words.now.world.now) s.now ≡ [] }
    ensures { MatchOption result (IsUnknown words.now.world.now words.now.text.now s.now)
        (λ step. SaysStep words.now.text.now words.now.world.now.lexicon step s.now) }
{
    match s {
        StepDecl::Plain { name } => match words.world.find_name(word(words.text, *name)) {
            Some(a) => Some(Step::Name(a)),
            None => None,
        },
        StepDecl::Bound { proto, name } => Some(bound_step(words, *proto, *name)),
    }
}

/// The steps, or None where one of them is a name that the world lacks.
fn steps_of(
    alloc: Global,
    words: &Words<'_>,
    steps: &[StepDecl],
) -> Result<Option<Vec<Step>>, AllocError>
    requires { flat_map (of_step words.now.text.now (declared words.now.world.now)) steps.now
        ≡ [] }
    ensures { IfOk result (λ found. MatchOption found
        (HasUnknown words.now.world.now words.now.text.now steps.now)
        (λ v. SaySteps words.now.text.now words.now.world.now.lexicon v.items steps.now)) }
{
    let mut found = Vec::new(alloc);
    for k in 0..steps.len() {
        let written = &steps[k];
        match step_of(words, written) {
            Some(step) => found.push(step)?,
            None => return Ok(None),
        }
    }
    Ok(Some(found))
}

/// The type parameter that a type on the signature f is, or None where one of its names is not a name of the world.
pub(crate) fn type_of(
    alloc: Global,
    words: &Words<'_>,
    table: &mut ParamTable,
    f: FuncId,
    t: &TypeDecl,
) -> Result<Option<TermId>, AllocError>
    requires signature { f.place < length words.now.world.now.signatures }
    requires resolves { of_type_on (declared words.now.world.now)
        (signature_at words.now.world.now f).signature words.now.text.now t.now ≡ [] }
    ensures says { IfOk result
        (λ a. SaysArgument words.now.world.now words.now.text.now f
        (option_map (term_at table.new) a) t.now) }
    ensures known { IfOk result (IsArgumentIn table.new words.now.world.now.lexicon) }
    ensures extends { Extends table.old table.new }
{
    let Some(param) = words.world.find_param(f, word(words.text, t.head)) else {
        unreachable!()
    };
    let Some(steps) = steps_of(alloc, words, t.steps.items())? else {
        return Ok(None);
    };
    let head = table.param(param)?;
    let id = followed(table, head, &steps)?;
    Ok(Some(id))
}
