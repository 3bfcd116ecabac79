//! The line of a reduced type.
ghost use Rattle.std.specs.Prelude.{◌≡◌, ◌++◌, List, codes, IfOk, OnErr, OnOk};
ghost use Rattle.swreq_print.specs.swreq_param.{Terms.{with_steps}, Terms.Term.{Generic}};
ghost use Rattle.swreq_print.specs.swreq_derive.Derivation.{TermRequirement};
ghost use Rattle.swreq_print.specs.Types.{type_text};
ghost use Rattle.swreq_machine.specs.swreq_symbols.Texts.{term_of, world_of};
ghost use Rattle.swreq_machine.specs.{Asked.{HasRoomFor, IsDerivable}, Machines.{IsMachineOf}};
ghost use Rattle.swreq_print.specs.swreq_lowering.Queries.TermAsks.{AsksReduced};
ghost use Rattle.swreq_query.specs.Asked.{AppendsAnswer, IsVerdictOf};

use crate::verdict::Verdict;
use std::alloc::{AllocError, Global};
use swreq_machine::symbols::Text;
use swreq_machine::{Machine, Scratch};
use swreq_print::lexicon::Lexicon;
use swreq_print::param::{ParamId, Step, TermId};
use swreq_print::steps_text;
use swreq_text::append_bytes;

/// Appends the line of the type parameter with this generic parameter and these steps.
fn type_line(
    alloc: Global,
    names: &Lexicon,
    head: ParamId,
    steps: &[Step],
    out: &mut Vec<u8>,
) -> Result<(), AllocError>
    ensures ok { OnOk result (out.new.items ≡ out.old.items
        ++ (type_text names.now (with_steps (Generic head) steps.now) ++ codes "\n")) }
    ensures err { OnErr result (out.new.items ≡ out.old.items) }
{
    let mut line = Vec::new(alloc);
    steps_text(alloc, names, head, steps, &mut line)?;
    append_bytes(&mut line, b"\n")?;
    append_bytes(out, &line)
}

/// Appends the line of the reduced type of t, or of `invalid` where t is not valid. Ok has the verdict, or None where the line is that of a
/// type.
pub(crate) fn reduced_line(
    alloc: Global,
    text: &Text<'_>,
    machine: &Machine,
    t: TermId,
    scratch: &mut Scratch,
    out: &mut Vec<u8>,
) -> Result<Option<Verdict>, AllocError>
    requires { HasRoomFor text.now scratch.old t }
    ensures ok { OnOk result ((list : List TermRequirement)
        → IsMachineOf (world_of text.now) list machine.now
        → AppendsAnswer text.now.world.now.lexicon
        (IsDerivable (world_of text.now) machine.now list)
        (AsksReduced (term_of text.now t)) out.old.items out.new.items) }
    ensures verdict { IfOk result (λ verdict. (list : List TermRequirement)
        → IsMachineOf (world_of text.now) list machine.now
        → IsVerdictOf (IsDerivable (world_of text.now) machine.now list)
        (AsksReduced (term_of text.now t)) verdict) }
    ensures err { OnErr result (out.new.items ≡ out.old.items) }
    ensures room { scratch.new.room ≡ scratch.old.room }
{
    if machine.reduce(text, t, scratch) {
        type_line(
            alloc,
            text.world.lexicon(),
            scratch.param(),
            scratch.steps(),
            out,
        )?;
        Ok(None)
    } else {
        append_bytes(out, Verdict::Invalid.line())?;
        Ok(Some(Verdict::Invalid))
    }
}
