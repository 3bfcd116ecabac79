// The lines that are printed.
ghost use Rattle.std.specs.Prelude.{◌≡◌, ◌++◌, OnOk};
ghost use Rattle.swreq_verify.specs.Outputs.{judgement_line, judgement_lines, judgement_text};

use crate::judging::Judgement;
use std::alloc::AllocError;
use swreq_text::{append_bytes, append_number};

fn put_bad_line(line: usize, out: &mut Vec<u8>) -> Result<(), AllocError>
    ensures { OnOk result
        (out.new.items ≡ out.old.items ++ judgement_text (Judgement.BadLine line)) }
{
    append_bytes(out, b"bad line ")?;
    append_number(out, line as u64)
}

fn put_judgement(judgement: Judgement, out: &mut Vec<u8>) -> Result<(), AllocError>
    ensures { OnOk result (out.new.items ≡ out.old.items ++ judgement_text judgement) }
{
    match judgement {
        Judgement::Skipped => append_bytes(out, b"skipped"),
        Judgement::BadLine { line } => put_bad_line(line, out),
        Judgement::Derived => append_bytes(out, b"ok"),
        Judgement::NotThis => append_bytes(out, b"not this"),
    }
}

fn put_line(judgement: Judgement, out: &mut Vec<u8>) -> Result<(), AllocError>
    ensures { OnOk result (out.new.items ≡ out.old.items ++ judgement_line judgement) }
{
    put_judgement(judgement, out)?;
    append_bytes(out, b"\n")
}

/// Puts a line for each judgement.
pub(crate) fn put_lines(judgements: &[Judgement], out: &mut Vec<u8>) -> Result<(), AllocError>
    ensures { OnOk result (out.new.items ≡ out.old.items ++ judgement_lines judgements.now) }
{
    for judgement in judgements {
        put_line(*judgement, out)?;
    }
    Ok(())
}
