//! The systems of rules of all rounds.
ghost use Rattle.std.specs.Prelude.{◌≡◌, ◌-◌, ◌<◌, ◌^◌, Some, length, slice_get, take};
ghost use Rattle.swreq_births.specs.Systems.{HasNumbered, HasRules, rules_at, system_at, systems_of};

use swreq_complete::rule::Rule;
use swreq_complete::word::Word;
use swreq_param::{ProtoId, TypeParam};
use swreq_readings::{Alphabet, Sides};
use swreq_text::Seq;

/// A requirement that has its type parameters in full, not by ids: `[T : P]`, `[T : AnyObject]` or `[T == U]`.
#[derive(Debug, Drop)]
pub enum OwnedRequirement {
    Conf { subject: TypeParam, proto: ProtoId },
    Layout { subject: TypeParam },
    Same { left: TypeParam, right: TypeParam },
}

/// Why a round has an equation.
#[derive(Debug, Drop)]
pub enum Reason {
    /// `[P][P] = [P]`, of the protocol.
    Doubled {
        proto: ProtoId,
    },
    /// `[P]·A = [P:A]`, of the member symbol with this rank.
    Named {
        rank: u64,
    },
    /// The requirement with this number, counted from 1, of the owner, or of the list if there is no owner. The rules of the earlier system
    /// `shown` show its type parameters valid.
    Required {
        owner: Option<ProtoId>,
        number: u32,
        requirement: OwnedRequirement,
        shown: usize,
    },
}

/// An equation of a round, with its reason.
#[derive(Debug, Drop)]
pub struct Equation {
    pub left: Word,
    pub right: Word,
    pub reason: Reason,
}

/// The rules of a round, with its equations. The first `base` rules are those of the system at `below`.
#[derive(Debug, Drop)]
pub struct System {
    pub base: usize,
    pub below: usize,
    pub rules: Seq<Rule>,
    pub given: Seq<Equation>,
}

/// What words are read by, and the systems of the rounds in order: those of the protocols, which are borrowed, and then those of the list.
#[derive(Drop)]
pub struct History<'b> {
    pub alphabet: Alphabet<'b>,
    pub below: &'b [System],
    pub own: Seq<System>,
}

/// A rule by its place in a system, and by the place of the system. Both are counted from 0.
#[derive(Clone, Copy, Debug)]
pub struct RulePlace {
    pub system: usize,
    pub rule: usize,
}

/// How many systems there are.
pub fn system_count(history: &History<'_>) -> usize
    requires { length (systems_of history.now) < 2 ^ 64 }
    ensures { result ≡ length (systems_of history.now) }
{
    history.below.len() + history.own.items().len()
}

/// The system at this place of the history.
pub fn system_at<'a>(history: &'a History<'_>, system: usize) -> &'a System
    requires { system < length (systems_of history.now) }
    ensures { result.now ≡ system_at history.now system }
{
    if system < history.below.len() {
        &history.below[system]
    } else {
        &history.own.items()[system - history.below.len()]
    }
}

/// The rules of a system before this place.
pub(crate) fn rules_before<'a>(history: &'a History<'_>, at: RulePlace) -> &'a [Rule]
    requires { HasRules history.now at }
    ensures { result.now ≡ take at.rule (rules_at history.now at.system) }
{
    &system_at(history, at.system).rules.items()[..at.rule]
}

/// An equation of a system, counted from 1.
pub(crate) fn equation_at<'a>(
    history: &'a History<'_>,
    system: usize,
    number: usize,
) -> &'a Equation
    requires { HasNumbered history.now system number }
    ensures { slice_get (system_at history.now system).given (number - 1) ≡ Some result.now }
{
    &system_at(history, system).given.items()[number - 1]
}

/// The two sides of an equation.
pub(crate) fn sides_of(equation: &Equation) -> Sides<'_>
    ensures from { result.from.now ≡ equation.now.left }
    ensures to { result.to.now ≡ equation.now.right }
{
    Sides {
        from: equation.left.symbols(),
        to: equation.right.symbols(),
    }
}

/// All rules of a system.
pub fn all_rules<'a>(history: &'a History<'_>, system: usize) -> &'a [Rule]
    requires { system < length (systems_of history.now) }
    ensures { result.now ≡ rules_at history.now system }
{
    system_at(history, system).rules.items()
}

/// The place after the last rule of a system.
pub(crate) fn all_of(system: usize, rules: &[Rule]) -> RulePlace
    ensures { result ≡ record { system = system; rule = length rules.now } }
{
    RulePlace {
        system,
        rule: rules.len(),
    }
}
