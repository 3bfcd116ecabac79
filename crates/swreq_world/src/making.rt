// The lists of the world of a text.
ghost use Rattle.std.specs.Prelude.{IfOk};
ghost use Rattle.swreq_lexicon.specs.swreq_names.Names.{HasDeclared};
ghost use Rattle.swreq_param.specs.Tables.{Extends};
ghost use Rattle.swreq_world.specs.Made.{AreListsOf};
ghost use Rattle.swreq_lowering.specs.{Short.{HasShortLists}, Words.{words_by}};

use crate::entries::entries;
use crate::made::WorldLists;
use crate::order::Order;
use crate::protocols::requirements;
use crate::queries::queries;
use std::alloc::{AllocError, Global};
use swreq_lowering::Words;
use swreq_param::ParamTable;

/// The lists of the world of a text.
#[tactic(auto, using(swreq_param::proofs::Growing::onward))]
pub fn lists_of(
    alloc: Global,
    table: &mut ParamTable,
    words: &Words<'_>,
) -> Result<WorldLists, AllocError>
    requires short { HasShortLists words.now.text.now words.now.skeleton.now }
    requires declared { HasDeclared words.now.text.now words.now.skeleton.now
        words.now.lexicon.now.resolved }
    ensures lists { IfOk result (AreListsOf table.old table.new (words_by words.now)) }
    ensures extends { Extends table.old table.new }
{
    let order = Box::new(alloc, Order::of(alloc, words.skeleton)?)?;
    let requirements = requirements(alloc, table, words)?;
    let signatures = entries(alloc, table, words, &order)?;
    let queries = queries(alloc, table, words, &order)?;
    Ok(WorldLists {
        order,
        requirements,
        signatures,
        queries,
    })
}
