//! Members of type parameters, and type parameters with another for `Self`, by their ids.
ghost use Rattle.std.specs.Prelude.{◌≡◌, ◌↔◌, IsTrue};
ghost use Rattle.swreq_param.specs.{Terms.Term.{Member}, Tables.{IsOf, term_at, AreDistinct}};
ghost use Rattle.swreq_derive.specs.{Derivation.{for_self}, Sides.{AreSidesOf}};

use swreq_param::{ParamTable, Step, TermId};

/// The two sides of an equality.
#[derive(Clone, Copy, Debug)]
pub(crate) struct Sides {
    pub left: TermId,
    pub right: TermId,
}

/// Whether v is the member of t with this step.
pub(crate) fn is_member(table: &ParamTable, v: TermId, t: TermId, step: Step) -> bool
    requires distinct { AreDistinct table.now }
    requires member { IsOf table.now v }
    requires base { IsOf table.now t }
    ensures { IsTrue result ↔ (term_at table.now v ≡ Member (term_at table.now t) step) }
{
    match table.split(v) {
        None => false,
        Some((base, last)) => base == t && last == step,
    }
}

/// Whether v is u with t for `Self`.
pub(crate) fn is_for_self(table: &ParamTable, t: TermId, u: TermId, v: TermId) -> bool
    requires distinct { AreDistinct table.now }
    requires for_self { IsOf table.now t }
    requires from { IsOf table.now u }
    requires to { IsOf table.now v }
    ensures { IsTrue result
        ↔ (term_at table.now v ≡ for_self (term_at table.now t) (term_at table.now u)) }
{
    let mut from = u;
    let mut to = v;
    loop {
        match table.split(from) {
            None => return to == t,
            Some((base, step)) => match table.split(to) {
                None => return false,
                Some((other, last)) => {
                    if step != last {
                        return false;
                    }
                    from = base;
                    to = other;
                }
            },
        }
    }
}

/// Whether the sides are the members of these bases, the left with the first step and the right
/// with the second.
pub(crate) fn are_members(
    table: &ParamTable,
    sides: Sides,
    bases: Sides,
    first: Step,
    second: Step,
) -> bool
    requires distinct { AreDistinct table.now }
    requires sides { AreSidesOf table.now sides }
    requires bases { AreSidesOf table.now bases }
    ensures { IsTrue result
        ↔ ((term_at table.now sides.left ≡ Member (term_at table.now bases.left) first)
        × (term_at table.now sides.right ≡ Member (term_at table.now bases.right) second)) }
{
    is_member(table, sides.left, bases.left, first)
        && is_member(table, sides.right, bases.right, second)
}

/// Whether the sides are those of a protocol's equality with t for `Self`.
pub(crate) fn are_for_self(table: &ParamTable, t: TermId, from: Sides, to: Sides) -> bool
    requires distinct { AreDistinct table.now }
    requires for_self { IsOf table.now t }
    requires from { AreSidesOf table.now from }
    requires to { AreSidesOf table.now to }
    ensures { IsTrue result ↔
        ((term_at table.now to.left ≡ for_self (term_at table.now t) (term_at table.now from.left))
        × (term_at table.now to.right
        ≡ for_self (term_at table.now t) (term_at table.now from.right))) }
{
    is_for_self(table, t, from.left, to.left) && is_for_self(table, t, from.right, to.right)
}
