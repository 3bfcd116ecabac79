//! Symbols that rules spare, and words that part for good from another.
ghost use Rattle.std.specs.{Prelude.{◌≡◌, List, IsTrue, IfOk, Contains}, Bool.{Decides}};
ghost use Rattle.swreq_print.specs.swreq_rule.declared.rules.Rule.{Rule};
ghost use Rattle.swreq_machine.specs.swreq_complete.Complete.{IsComplete};
ghost use Rattle.swreq_confpath.specs.Parting.{AllSpareOthers, AreBeforeProtocol, AreInCommon, PartsForGood, SparesOthers};

use std::alloc::{AllocError, Global};
use swreq_machine::complete::CompleteRules;
use swreq_machine::rule::Rule;
use swreq_machine::word::Symbol;

/// How many symbols two words have in common at the front.
fn in_common(u: &[Symbol], v: &[Symbol]) -> usize
    ensures { AreInCommon u.now v.now result }
{
    let most = u.len().min(v.len());
    for k in 0..most {
        if u[k] != v[k] {
            return k;
        }
    }
    most
}

/// How many symbols of a word come before the first one of a protocol, or how many it has where there is none.
fn before_protocol(word: &[Symbol]) -> usize
    ensures { AreBeforeProtocol word.now result }
{
    for k in 0..word.len() {
        match word[k] {
            Symbol::Proto(_) => return k,
            _ => {}
        }
    }
    word.len()
}

/// Whether the symbol is one of these.
fn is_among(symbols: &[Symbol], x: Symbol) -> bool
    ensures { Decides result (Contains symbols.now x) }
{
    symbols.contains(&x)
}

/// The symbols of a left side that the rule may change in a word that is reduced up to them: those after what both sides have in common, up
/// to a protocol's symbol, without the last one.
fn changed_by(rule: &Rule) -> &[Symbol]
    ensures { SparesOthers rule.now result.now }
{
    let left = rule.left.symbols();
    let from = in_common(left, rule.right.symbols());
    let to = before_protocol(left).min(left.len().saturating_sub(1));
    if from < to {
        return &left[from..to];
    }
    &[]
}

/// The symbols that rules may change in a word that is reduced up to them, some of them more than once. The rules are complete.
pub(crate) fn changed_symbols(
    alloc: Global,
    rules: &CompleteRules<'_>,
) -> Result<Vec<Symbol>, AllocError>
    ensures others { IfOk result (λ changed. AllSpareOthers rules.now changed.items) }
    ensures complete { IsComplete rules.now }
{
    let count = rules.count();
    let mut changed: Vec<Symbol> = Vec::new(alloc);
    for k in 0..count {
        changed.extend_from_slice(changed_by(rules.rule(k)))?;
    }
    Ok(changed)
}

/// Whether the word `v` parts from `u` by a symbol that is not one of those that the rules change.
pub(crate) fn parts_for_good(changed: &[Symbol], u: &[Symbol], v: &[Symbol]) -> bool
    ensures { (rules : List Rule) → AllSpareOthers rules changed.now → IsTrue result
        → PartsForGood rules u.now v.now }
{
    let from = in_common(u, v);
    let to = before_protocol(v);
    for k in from..to {
        if !is_among(changed, v[k]) {
            return true;
        }
    }
    false
}
