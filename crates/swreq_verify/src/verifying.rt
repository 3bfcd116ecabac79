// The second part of an input, read and judged.
#![tactic(auto, using(swreq_symbols::proofs::OfTexts::text_over))]

ghost use Rattle.std.specs.Prelude.{◌≡◌, ◌≤◌, ℕ, OnErr, OnOk, length};
ghost use Rattle.swreq_lines.specs.declared.lines.LinesErr.TheVariants.{Syntax};
ghost use Rattle.swreq_world.specs.swreq_param.Tables.{Extends};
ghost use Rattle.swreq_text.specs.Lines.{lines};
ghost use Rattle.swreq_lines.specs.swreq_print.Reading.{TellsApart};
ghost use Rattle.swreq_symbols.specs.{Known.{IsTextOver}, Texts.{world_of}};
ghost use Rattle.swreq_world.specs.ByTable.{world_by};
ghost use Rattle.swreq_verify.specs.{Claims.{sections_of}, Outputs.{AppendsJudgements, AppendsOutput}, SecondParts.{IsFirstMisfit}};

use crate::judging::{Laid, judgements};
use crate::printing::put_lines;
use crate::reading::read_sections;
use std::alloc::{AllocError, Global};
use swreq_lines::LinesErr;
use swreq_symbols::Text;
use swreq_text::append_bytes;
use swreq_world::World;
use swreq_world::param::ParamTable;

/// Appends a line for the section under each query.
fn append_judgements(
    alloc: Global,
    laid: &Laid<'_, '_>,
    out: &mut Vec<u8>,
) -> Result<(), AllocError>
    ensures ok { OnOk result (AppendsJudgements (world_of laid.now.text) (sections_of laid.now)
        out.old.items out.new.items) }
    ensures err { OnErr result (out.new.items ≡ out.old.items) }
{
    let found = judgements(alloc, laid)?;
    let mut lines = Vec::new(alloc);
    put_lines(&found, &mut lines)?;
    append_bytes(out, &lines)
}

/// Lays the second part of an input against the queries of the world, and appends what is said of the derivation under each query.
///
/// It is `LinesErr::Syntax` if and only if the second part does not fit the queries, with the first line that does not fit; where lines are
/// missing, with the number after the last one. On every error `out` is unchanged. Type parameters come into the table, which begins with
/// the old one on every answer.
pub fn verify(
    alloc: Global,
    world: &World,
    table: &mut ParamTable,
    text: &[u8],
    out: &mut Vec<u8>,
) -> Result<(), LinesErr>
    requires text { IsTextOver table.old world.now }
    requires names { TellsApart world.now.lexicon }
    requires short { length text.now ≤ 1048576 }
    ensures output { OnOk result
        (AppendsOutput (world_by table.old world.now) text.now out.old.items out.new.items) }
    ensures misfit { (n : ℕ) → result ≡ Err (Syntax n)
        → IsFirstMisfit world.now.lexicon (length world.now.queries) (lines text.now) n }
    ensures err { OnErr result (out.new.items ≡ out.old.items) }
    ensures extends { Extends table.old table.new }
{
    let count = world.queries().len();
    let sections = read_sections(alloc, world.lexicon(), table, count, text)?;
    let text = Text { world, table };
    let laid = Laid {
        text,
        sections: &sections,
    };
    append_judgements(alloc, &laid, out)?;
    Ok(())
}
