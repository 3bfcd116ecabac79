// The requirements of the protocols, by rank.
ghost use Rattle.std.specs.Prelude.{◌≡◌, ◌<◌, length, map, slice_get, IfOk};
ghost use Rattle.swreq_param.specs.Tables.{Extends};
ghost use Rattle.swreq_world.specs.{Filling.{FillsLists}, Text.{of_protocol, of_place, requirements_named}};
ghost use Rattle.swreq_lowering.specs.{Adding.{Lists}, ByTable.{AreOf, placed}, Words.{words_by}};

use crate::listed::RequirementList;
use std::alloc::{AllocError, Global};
use swreq_lowering::{Words, Written, of_protocol};
use swreq_param::{ParamTable, ProtoId};

fn of_place(
    alloc: Global,
    table: &mut ParamTable,
    words: &Words<'_>,
    place: usize,
) -> Result<Vec<Written>, AllocError>
    ensures lists { IfOk result (λ v. Lists table.old table.new (of_protocol (words_by words.now)
        (slice_get words.now.skeleton.now.protocols place)) v.items) }
    ensures extends { Extends table.old table.new }
{
    match words.skeleton.protocols.items().get(place) {
        Some(p) => of_protocol(alloc, table, words, p),
        None => Ok(Vec::new(alloc)),
    }
}

/// The requirements of the protocol of this name.
fn named(
    alloc: Global,
    table: &mut ParamTable,
    words: &Words<'_>,
    name: &[u8],
) -> Result<Vec<Written>, AllocError>
    ensures lists { IfOk result (λ v.
        Lists table.old table.new (requirements_named (words_by words.now) name.now) v.items) }
    ensures extends { Extends table.old table.new }
{
    match words.lexicon.resolved().find_protocol(name) {
        Some(place) => of_place(alloc, table, words, place),
        None => Ok(Vec::new(alloc)),
    }
}

fn listed(
    alloc: Global,
    table: &mut ParamTable,
    words: &Words<'_>,
    name: &[u8],
) -> Result<RequirementList, AllocError>
    ensures extends { Extends table.old table.new }
    ensures of { IfOk result (AreOf table.new) }
    ensures means { IfOk result
        (λ l. placed table.new l ≡ requirements_named (words_by words.now) name.now) }
{
    let written = named(alloc, table, words, name)?;
    RequirementList::of(alloc, written)
}

/// The requirements of each protocol, by rank.
#[tactic(auto, using(swreq_param::proofs::Growing::onward))]
pub fn requirements(
    alloc: Global,
    table: &mut ParamTable,
    words: &Words<'_>,
) -> Result<Vec<RequirementList>, AllocError>
    ensures fills { IfOk result (λ v. FillsLists table.old table.new
        (map (requirements_named (words_by words.now)) words.now.lexicon.now.protocols) v.items) }
    ensures extends { Extends table.old table.new }
{
    let mut made = Vec::new(alloc);
    let count = words.lexicon.protocols();
    let mut rank = 0;
    while rank < count {
        let name = words.lexicon.proto_name(ProtoId { rank });
        let list = listed(alloc, table, words, name)?;
        made.push(list)?;
        rank += 1;
    }
    Ok(made)
}
