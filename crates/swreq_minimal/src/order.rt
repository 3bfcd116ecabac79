//! The order of canonical requirements.
ghost use Rattle.std.specs.Prelude.{◌≡◌, ◌↔◌, IsTrue, List};
ghost use Rattle.swreq_machine.specs.swreq_param.{Tables.{IsOf, term_at}, Terms.{Term}};
ghost use Rattle.swreq_machine.specs.swreq_derive.Facts.{requirement_of};
ghost use Rattle.swreq_machine.specs.swreq_lowering.ByTable.{HasIdsOf};
ghost use Rattle.swreq_candidates.specs.swreq_canonical.Canonical as canonical;
ghost use Rattle.swreq_candidates.specs.swreq_canonical.CanonicalOrder.{KindBefore, RequirementBefore};

use std::cmp::Ordering;
use swreq_machine::derive::Requirement;
use swreq_machine::param::{ParamTable, TermId};

/// The principal type of a requirement.
fn principal(r: Requirement) -> TermId
    ensures of { (terms : List Term) → HasIdsOf terms r → IsOf terms result }
    ensures stands { (terms : List Term)
        → term_at terms result ≡ canonical.principal (requirement_of terms r) }
{
    match r {
        Requirement::Conf { subject, .. } => subject,
        Requirement::Layout { subject } => subject,
        Requirement::Same { right, .. } => right,
    }
}

/// Whether a requirement comes before another one of the same principal type.
fn is_kind_before(r: Requirement, q: Requirement) -> bool
    ensures { (terms : List Term) → IsTrue result
        ↔ KindBefore (requirement_of terms r) (requirement_of terms q) }
{
    match (r, q) {
        (Requirement::Conf { proto, .. }, Requirement::Conf { proto: other, .. }) => {
            proto.rank < other.rank
        }
        (Requirement::Conf { .. }, Requirement::Layout { .. }) => true,
        _ => false,
    }
}

/// Whether a requirement comes before another one.
pub(crate) fn is_before(table: &ParamTable, r: Requirement, q: Requirement) -> bool
    requires { HasIdsOf table.now r × HasIdsOf table.now q }
    ensures { IsTrue result ↔ RequirementBefore (requirement_of table.now r)
        (requirement_of table.now q) }
{
    match table.compare(principal(r), principal(q)) {
        Ordering::Less => true,
        Ordering::Equal => is_kind_before(r, q),
        Ordering::Greater => false,
    }
}

/// Whether two requirements are the same.
pub(crate) fn is_same(table: &ParamTable, r: Requirement, q: Requirement) -> bool
    requires { HasIdsOf table.now r × HasIdsOf table.now q }
    ensures { IsTrue result ↔ (requirement_of table.now r ≡ requirement_of table.now q) }
{
    let _count = table.len();
    r == q
}
