//! Type parameters by themselves, without a table.
ghost use Rattle.std.specs.{Prelude.{◌≡◌, ◌++◌}, Ordering.{as_partial_cmp, eq_by_cmp}};
ghost use Rattle.std.specs.Cmp as cmps;
ghost use Rattle.std.proofs.Common.{refl, ap};
ghost use Rattle.swreq_param.specs.{Owned.{owned_cmp}, OwnedLaws.{owned_total, owned_partial, owned_equivalent, owned_same}};

use crate::ids::{ParamId, Step};
use std::cmp::Ordering;
use std::hash::{Hash, Hasher};
use swreq_text::Seq;

/// A type parameter by itself: a generic parameter with the steps of its members, none or more.
///
/// The order is that of type parameters: by the number of steps, then by the generic parameter,
/// then by the steps from the left.
#[derive(Debug, Drop)]
pub struct TypeParam {
    pub head: ParamId,
    pub steps: Seq<Step>,
}

impl Ord for TypeParam {
    ghost cmp = { owned_cmp };

    ghost total = { owned_total };

    ghost matches_partial_cmp = { λ a b. refl };

    ghost matches_eq = { λ a b. refl };

    fn cmp(&self, other: &TypeParam) -> Ordering {
        let left = self.steps.items();
        let right = other.steps.items();
        left.len()
            .cmp(&right.len())
            .then(self.head.cmp(&other.head))
            .then(left.cmp(&right))
    }
}

impl PartialOrd for TypeParam {
    ghost partial_cmp = { as_partial_cmp owned_cmp };

    ghost laws = { owned_partial };

    fn partial_cmp(&self, other: &TypeParam) -> Option<Ordering> {
        Some(self.cmp(other))
    }
}

impl PartialEq for TypeParam {
    ghost eq = { eq_by_cmp owned_cmp };

    ghost laws = { cmps.partial_equiv_from_equiv owned_equivalent };

    fn eq(&self, other: &TypeParam) -> bool {
        self.cmp(other).is_eq()
    }
}

impl Eq for TypeParam {
    ghost laws = { owned_equivalent };
}

impl Hash for TypeParam {
    ghost hash_input = { λ p. ⟦<ParamId as Hash>⟧.hash_input p.head ++ ⟦<Seq<Step> as Hash>⟧.hash_input p.steps };

    ghost respects_eq = { λ a b e. ap (λ p. ⟦<ParamId as Hash>⟧.hash_input p.head ++ ⟦<Seq<Step> as Hash>⟧.hash_input p.steps) (owned_same a b e) };

    fn hash<H: Hasher>(&self, state: &mut H) {
        self.head.hash(state);
        self.steps.hash(state);
    }
}
