//! What became of a round that another one came after.

use swreq_complete::rule::Rule;
use swreq_complete::{CompleteRules, RewritingSystem};
use swreq_text::Seq;

/// What became of a round: it ended; it passed a limit with this trace and was begun anew after its short round; or it was a short round
/// alone. The rules may be borrowed in part.
#[derive(Drop)]
pub(crate) enum Course<'b> {
    Ended(CompleteRules<'b>),
    Stopped(Seq<Rule>, RewritingSystem<'b>),
    Short(RewritingSystem<'b>),
}
