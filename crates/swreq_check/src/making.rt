//! What is made of each machine while it stands.
ghost use Rattle.std.specs.Prelude.{◌+◌, OnOk};
ghost use Rattle.swreq_machine.specs.swreq_param.Tables.{Extends};
ghost use Rattle.swreq_check.specs.{Contents.{AreSystems}, Settings.{AreMadeIn, IsOwn}};

use crate::answering::answer_queries;
use crate::content::Made;
use crate::piece::Piece;
use crate::setting::Own;
use std::alloc::AllocError;
use swreq_machine::param::ParamTable;
use swreq_machine::symbols::Text;
use swreq_query::system_text;
use swreq_text::Seq;

/// Puts the reduced rewriting system of a signature to its place.
fn put_system(
    own: &Own<'_>,
    table: &ParamTable,
    pieces: &mut Vec<Option<Piece>>,
) -> Result<(), AllocError>
    requires own { IsOwn table.now own.now }
    requires systems { AreSystems own.now.s.now.content }
    requires pieces { AreMadeIn table.now own.now.s.now own.now.f.place pieces.old.items }
    ensures { OnOk result
        (AreMadeIn table.now own.now.s.now (own.now.f.place + 1) pieces.new.items) }
{
    let over = Text {
        world: own.s.world,
        table,
    };
    let mut text = Vec::new(own.s.alloc);
    system_text(own.s.alloc, &over, own.machine, own.f, &mut text)?;
    pieces[own.f.place as usize] = Some(Piece {
        text: Seq::new(text),
        verdict: None,
    });
    Ok(())
}

/// Makes the pieces that the machine of the next signature makes.
pub(crate) fn make_pieces(
    own: &Own<'_>,
    table: &mut ParamTable,
    pieces: &mut Vec<Option<Piece>>,
) -> Result<(), AllocError>
    requires own { IsOwn table.old own.now }
    requires pieces { AreMadeIn table.old own.now.s.now own.now.f.place pieces.old.items }
    ensures pieces { OnOk result
        (AreMadeIn table.old own.now.s.now (own.now.f.place + 1) pieces.new.items) }
    ensures extends { OnOk result (Extends table.old table.new) }
{
    match own.s.content.makes() {
        Made::Lines => answer_queries(own, table, pieces),
        Made::Systems => put_system(own, table, pieces),
        Made::Lists | Made::Nothing => Ok(()),
    }
}
