// The queries of a text.
ghost use Rattle.std.specs.Prelude.{◌≡◌, map, IfOk};
ghost use Rattle.swreq_lexicon.specs.swreq_names.Names.{HasDeclared};
ghost use Rattle.swreq_param.specs.Tables.{Extends};
ghost use Rattle.swreq_world.specs.Filling.{FillsQueries};
ghost use Rattle.swreq_lowering.specs.{ByTable.{HasQueryIdsOf, query_by}, Queries.{query_of}, Short.{HasShortLists}, Words.{words_by}};

use crate::order::Order;
use std::alloc::{AllocError, Global};
use swreq_lexicon::decl::QueryDecl;
use swreq_lowering::{Query, Words, asked_of, asked_signature};
use swreq_param::ParamTable;

/// What a written query asks, over the ids of the table.
fn query_of(
    table: &mut ParamTable,
    words: &Words<'_>,
    order: &Order,
    asked: &QueryDecl,
) -> Result<Query, AllocError>
    requires short { HasShortLists words.now.text.now words.now.skeleton.now }
    requires declared { HasDeclared words.now.text.now words.now.skeleton.now
        words.now.lexicon.now.resolved }
    ensures of { IfOk result (HasQueryIdsOf table.new) }
    ensures asks { IfOk result
        (λ q. query_by table.new q ≡ query_of (words_by words.now) order.now asked.now) }
    ensures extends { Extends table.old table.new }
{
    let signature = asked_signature(words, asked);
    let function = order.func_id(signature);
    let asks = asked_of(table, words, signature, &asked.ask)?;
    Ok(Query { f: function, asks })
}

/// The queries in written order.
#[tactic(auto, using(swreq_param::proofs::Growing::onward))]
pub fn queries(
    alloc: Global,
    table: &mut ParamTable,
    words: &Words<'_>,
    order: &Order,
) -> Result<Vec<Query>, AllocError>
    requires short { HasShortLists words.now.text.now words.now.skeleton.now }
    requires declared { HasDeclared words.now.text.now words.now.skeleton.now
        words.now.lexicon.now.resolved }
    ensures fills { IfOk result (λ v. FillsQueries table.old table.new
        (map (query_of (words_by words.now) order.now) words.now.skeleton.now.queries) v.items) }
    ensures extends { Extends table.old table.new }
{
    let mut made = Vec::new(alloc);
    for q in words.skeleton.queries.items() {
        let query = query_of(table, words, order, q)?;
        made.push(query)?;
    }
    Ok(made)
}
