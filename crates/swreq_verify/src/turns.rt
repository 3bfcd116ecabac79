// The order in which queries are judged.
ghost use Rattle.std.specs.Prelude.{IfOk, length};
ghost use Rattle.swreq_verify.specs.Turns.{AreTurns};

use std::alloc::{AllocError, Global};
use swreq_world::lowering::Query;

/// A query, by its place, after the place of the signature that it asks.
#[derive(Clone, Copy, PartialEq, Eq, PartialOrd, Ord)]
pub(crate) struct Turn {
    pub signature: u32,
    pub query: usize,
}

/// A turn for each query. Queries on one signature have their turns one after the other.
pub(crate) fn turns_of(alloc: Global, queries: &[Query]) -> Result<Vec<Turn>, AllocError>
    ensures { IfOk result (λ v. AreTurns v.items (length queries.now)) }
{
    let mut turns = Vec::new(alloc);
    for k in 0..queries.len() {
        let signature = queries[k].f.place;
        turns.push(Turn {
            signature,
            query: k,
        })?;
    }
    turns.sort_unstable();
    Ok(turns)
}
