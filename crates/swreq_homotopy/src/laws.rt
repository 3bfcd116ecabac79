//! What evidence is good for, over the definitions alone.

ghost use Rattle.swreq_homotopy.specs.Laws.{EvidenceIsCongruent, EvidenceLinks};

use swreq_rule::Rule;

/// Steps by the kept rules other than that of the evidence, forth and back, lead from the left side of that rule to its right side.
pub fn evidence_links(rules: &[Rule], keep: &[bool])
    ensures { EvidenceLinks rules.now keep.now }
{}

/// Where the two sides of each kept rule other than that of the evidence are congruent, the two sides of that rule are.
pub fn evidence_is_congruent(rules: &[Rule], keep: &[bool])
    ensures { EvidenceIsCongruent rules.now keep.now }
{}
