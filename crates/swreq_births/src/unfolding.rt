//! The two sides of a rule, read after a type parameter.
ghost use Rattle.std.specs.Prelude.{OnOk, ◌≡◌, ◌++◌, [], ◌∷◌, IfOk};
ghost use Rattle.swreq_param.specs.{Tables.{IsOf, term_at}, Owned.{as_term}};
ghost use Rattle.swreq_complete.specs.Alike.{ReduceAlike};
ghost use Rattle.swreq_complete.specs.swreq_rule.declared.rules.Birth.TheVariants as births;
ghost use Rattle.swreq_correspondence.specs.swreq_derive.Instances.{HasNumber};
ghost use Rattle.swreq_derivation.specs.{Origins.{placed, written_by}, UnderWay.{ContinuesFrom, AreStatedEqual}};
ghost use Rattle.swreq_readings.specs.Readable.{AllowsWord, ReadsAlike, IsGiven, read_word};
ghost use Rattle.swreq_births.specs.Systems.{FitsHistory, rules_at, HasShownSides, IsBornAt, IsReducedAt, IsShown, requirement_by};
ghost use Rattle.swreq_births.specs.{Readings.{AreAlike, IsAllowed, bound_by, symbol_of}, Types.{IsStepShown}, Unfolding.{AllowsEquation, AllowsRule, AllowsScope, IsPathAt, IsSaid, LeadsTo}};

use crate::giving::give_same;
use crate::history::{
    Equation, History, OwnedRequirement, Reason, RulePlace, all_of, all_rules, equation_at,
    rules_before, sides_of, system_at,
};
use crate::members::known_step;
use crate::pairs::{close, first_symbols, read_pair};
use crate::stepping::{before, rule_of, step_of, take_step};
use crate::types::{ReadingPlace, path_between, shown_step, start, step_at};
use std::alloc::AllocError;
use swreq_complete::path::{Path, path_of};
use swreq_complete::rule::{Birth, Place, Rule};
use swreq_complete::word::{Symbol, Word};
use swreq_derivation::{Bound, Derivation, Origin, add_requirement, bound_requirement};
use swreq_param::{Step, TermId, TypeParam};
use swreq_readings::{
    ProtocolName, Sides, are_read_equal, carry_bound, equal_member, inherit, join, member_at,
    read_word,
};

/// If two words reduce to one by the rules of a system, and lines allow the first after T, then lines allow the second after T too, and
/// state that the two are read as equal type parameters.
pub fn link(
    history: &History,
    derivation: &mut Derivation,
    scope: ReadingPlace,
    from: &[Symbol],
    to: &[Symbol],
) -> Result<(), AllocError>
    requires scope { AllowsScope history.now derivation.old scope }
    requires word { AllowsWord history.now.alphabet derivation.old
        (term_at derivation.old.table scope.for_self) from.now }
    requires alike { ReduceAlike (rules_at history.now scope.system) from.now to.now }
    ensures both { OnOk result (ReadsAlike history.now.alphabet derivation.old derivation.new
        scope.for_self from.now to.now) }
    ensures continues { ContinuesFrom (FitsHistory history.now) derivation.old derivation.new }
{
    let rules = all_rules(history, scope.system);
    match path_between(derivation.alloc(), rules, from, to)? {
        None => unreachable!(),
        Some(path) => {
            let at = all_of(scope.system, rules);
            walk_along(history, derivation, at, scope.for_self, &path)?;
            Ok(())
        }
    }
}

/// If lines allow the first word of a path over the rules before this place, then they allow the last word too, and state that the two are
/// read as equal type parameters. Answers the last word.
#[cycle(lines_of_rule)]
pub(crate) fn walk_along(
    history: &History,
    derivation: &mut Derivation,
    at: RulePlace,
    subject: TermId,
    path: &Path,
) -> Result<Word, AllocError>
    requires path { IsPathAt history.now at path.now }
    requires word { IsAllowed history.now.alphabet derivation.old subject path.now.start }
    ensures target { IfOk result (λ w. LeadsTo history.now at path.now w) }
    ensures both { IfOk result (λ w. ReadsAlike history.now.alphabet derivation.old derivation.new
        subject path.now.start w) }
    ensures continues { ContinuesFrom (FitsHistory history.now) derivation.old derivation.new }
{
    let alphabet = &history.alphabet;
    let rules = rules_before(history, at);
    let mut word = path.start.clone()?;
    for k in 0..path.steps.items().len() {
        let step = step_of(path, k);
        let rule = rule_of(rules, step.rule);
        let v = read_word(alphabet, derivation, subject, step.before.symbols())?;
        lines_of_rule(history, derivation, before(at, step.rule), rule, v)?;
        take_step(alphabet, derivation, subject, rule, step)?;
        let next = step.target(derivation.alloc(), rules)?;
        join(
            alphabet,
            derivation,
            subject,
            path.start.symbols(),
            word.symbols(),
            next.symbols(),
        )?;
        word = next;
    }
    Ok(word)
}

/// If two words are read alike, so are the two sides of the rule that the rules before it reduce them to.
#[cycle(lines_of_rule)]
fn settle(
    history: &History,
    derivation: &mut Derivation,
    at: RulePlace,
    rule: &Rule,
    subject: TermId,
    words: Sides,
) -> Result<(), AllocError>
    requires rule { IsReducedAt history.now at rule.now words.from.now words.to.now }
    requires words { AreAlike history.now.alphabet derivation.old subject words.from.now
        words.to.now }
    ensures both { OnOk result (IsSaid history.now derivation.old derivation.new subject
        rule.now) }
    ensures continues { ContinuesFrom (FitsHistory history.now) derivation.old derivation.new }
{
    let rules = rules_before(history, at);
    let forth = path_of(derivation.alloc(), rules, words.from)?;
    let first = walk_along(history, derivation, at, subject, &forth)?;
    let back = path_of(derivation.alloc(), rules, words.to)?;
    let last = walk_along(history, derivation, at, subject, &back)?;
    let ends = Sides {
        from: first.symbols(),
        to: last.symbols(),
    };
    close(&history.alphabet, derivation, subject, words, ends, rule)
}

/// States that the two sides of a rule are read alike after a type parameter, if lines state what the rule asks of it. What lines state
/// already is not unfolded again.
#[cycle(lines_of_rule)]
pub fn lines_of_rule(
    history: &History,
    derivation: &mut Derivation,
    at: RulePlace,
    rule: &Rule,
    subject: TermId,
) -> Result<(), AllocError>
    requires { AllowsRule history.now derivation.old at rule.now subject }
    ensures both { OnOk result (IsSaid history.now derivation.old derivation.new subject
        rule.now) }
    ensures continues { ContinuesFrom (FitsHistory history.now) derivation.old derivation.new }
{
    let system = system_at(history, at.system);
    if at.rule < system.base {
        let lower = RulePlace {
            system: system.below,
            rule: at.rule,
        };
        return lines_of_rule(history, derivation, lower, rule, subject);
    }
    let left = rule.left.symbols();
    let right = rule.right.symbols();
    let said = are_read_equal(&history.alphabet, derivation, subject, left, right)?;
    if said {
        return Ok(());
    }
    match rule.birth {
        Birth::Given(n) => {
            let equation = equation_at(history, at.system, n);
            give_equation(history, derivation, at.system, equation, subject)?;
            settle(history, derivation, at, rule, subject, sides_of(equation))
        }
        Birth::Pair(i, j, place) => {
            let place = Place { i, j, at: place };
            from_pair(history, derivation, at, rule, place, subject)
        }
    }
}

/// The same of a rule that is born of a pair.
#[cycle(lines_of_rule)]
fn from_pair(
    history: &History,
    derivation: &mut Derivation,
    at: RulePlace,
    rule: &Rule,
    place: Place,
    subject: TermId,
) -> Result<(), AllocError>
    requires asked { AllowsRule history.now derivation.old at rule.now subject }
    requires born { IsBornAt history.now at rule.now (births.Pair place.i place.j place.at) }
    ensures both { OnOk result (IsSaid history.now derivation.old derivation.new subject
        rule.now) }
    ensures continues { ContinuesFrom (FitsHistory history.now) derivation.old derivation.new }
{
    let alphabet = &history.alphabet;
    let rules = all_rules(history, at.system);
    let first = rule_of(rules, place.i);
    let second = rule_of(rules, place.j);
    lines_of_rule(history, derivation, before(at, place.i), first, subject)?;
    let part = first_symbols(first.left.symbols(), place.at);
    let v = read_word(alphabet, derivation, subject, part)?;
    lines_of_rule(history, derivation, before(at, place.j), second, v)?;
    let (left, right) = read_pair(alphabet, derivation, subject, first, second, place.at)?;
    let words = Sides {
        from: &left,
        to: &right,
    };
    settle(history, derivation, at, rule, subject, words)
}

/// States that the two sides of an equation of a round are read alike after a type parameter, if lines state what its left side asks of it.
#[cycle(lines_of_rule)]
fn give_equation(
    history: &History,
    derivation: &mut Derivation,
    system: usize,
    equation: &Equation,
    subject: TermId,
) -> Result<(), AllocError>
    requires { AllowsEquation history.now derivation.old system equation.now subject }
    ensures both { OnOk result (ReadsAlike history.now.alphabet derivation.old derivation.new
        subject equation.now.left equation.now.right) }
    ensures continues { ContinuesFrom (FitsHistory history.now) derivation.old derivation.new }
{
    match &equation.reason {
        Reason::Doubled { .. } => Ok(()),
        Reason::Named { rank } => {
            let alphabet = &history.alphabet;
            let named = member_at(alphabet, *rank);
            inherit(alphabet, derivation, subject, named.proto, named.name)
        }
        Reason::Required {
            owner,
            number,
            requirement,
            shown,
        } => {
            let scope = ReadingPlace {
                system: *shown,
                owner: *owner,
                for_self: subject,
            };
            let words = sides_of(equation);
            give_required(history, derivation, scope, *number, requirement, words)
        }
    }
}

/// The same of the equation of the requirement with this number. The rules of the system in `scope` show its type parameters valid.
#[cycle(lines_of_rule)]
fn give_required(
    history: &History,
    derivation: &mut Derivation,
    scope: ReadingPlace,
    number: u32,
    requirement: &OwnedRequirement,
    words: Sides,
) -> Result<(), AllocError>
    requires scope { AllowsScope history.now derivation.old scope }
    requires shown { HasShownSides history.now.alphabet scope.owner
        (rules_at history.now scope.system) requirement.now words.from.now words.to.now }
    ensures both { OnOk result (ReadsAlike history.now.alphabet derivation.old derivation.new
        scope.for_self words.entry.from.now words.entry.to.now) }
    ensures continues { ContinuesFrom (λ b. FitsHistory history.now b
        × HasNumber number (written_by b scope.owner) (requirement_by requirement.now))
        derivation.old derivation.new }
{
    match requirement {
        OwnedRequirement::Conf { subject, proto } => {
            let bound = (subject, Bound::Protocol(*proto));
            give_bound(history, derivation, scope, number, bound, words.to)
        }
        OwnedRequirement::Layout { subject } => {
            let bound = (subject, Bound::AnyObject);
            give_bound(history, derivation, scope, number, bound, words.to)
        }
        OwnedRequirement::Same { left, right } => {
            let u = read_type(history, derivation, scope, left, words.from)?;
            let v = read_type(history, derivation, scope, right, words.to)?;
            let origin = Origin {
                owner: scope.owner,
                number,
                for_self: scope.for_self,
            };
            give_same(&history.alphabet, derivation, origin, (u, v), words)
        }
    }
}

/// The same of a requirement `[U : Q]` or `[U : AnyObject]`. `bounded` is U with Q or `AnyObject`, and `word` is the word of U.
#[cycle(lines_of_rule)]
fn give_bound(
    history: &History,
    derivation: &mut Derivation,
    scope: ReadingPlace,
    number: u32,
    bounded: (&TypeParam, Bound),
    word: &[Symbol],
) -> Result<(), AllocError>
    requires scope { AllowsScope history.now derivation.old scope }
    requires shown { IsShown history.now.alphabet scope.owner (rules_at history.now scope.system)
        (as_term bounded.0.now) word.now }
    ensures both { OnOk result (ReadsAlike history.now.alphabet derivation.old derivation.new
        scope.for_self (word.now ++ symbol_of bounded.entry.1 ∷ []) word.now) }
    ensures continues { ContinuesFrom (λ b. FitsHistory history.now b × HasNumber number
        (written_by b scope.owner) (bound_by bounded.entry.1 (as_term bounded.entry.0.now)))
        derivation.old derivation.new }
{
    let (param, bound) = bounded;
    let subject = read_type(history, derivation, scope, param, word)?;
    let origin = Origin {
        owner: scope.owner,
        number,
        for_self: scope.for_self,
    };
    add_requirement(derivation, origin, bound_requirement(subject, bound))?;
    let last = read_word(&history.alphabet, derivation, scope.for_self, word)?;
    carry_bound(derivation, subject, last, bound)
}

/// States what the word of a type parameter is read as. The rules of the system show the type parameter valid. Lines allow the word, and
/// state that the type parameter, with T for `Self`, equals what the word is read as. Answers the id of the type parameter with T for
/// `Self`.
#[cycle(lines_of_rule)]
pub fn read_type(
    history: &History,
    derivation: &mut Derivation,
    scope: ReadingPlace,
    param: &TypeParam,
    word: &[Symbol],
) -> Result<TermId, AllocError>
    requires scope { AllowsScope history.now derivation.old scope }
    requires shown { IsShown history.now.alphabet scope.owner (rules_at history.now scope.system)
        (as_term param.now) word.now }
    ensures is_of { IfOk result (IsOf derivation.new.table) }
    ensures stands { IfOk result (λ u. term_at derivation.new.table u
        ≡ placed scope.owner (term_at derivation.old.table scope.for_self) (as_term param.now)) }
    ensures word { OnOk result (AllowsWord history.now.alphabet derivation.new
        (term_at derivation.old.table scope.for_self) word.now) }
    ensures equal { OnOk result (AreStatedEqual derivation.new
        (placed scope.owner (term_at derivation.old.table scope.for_self) (as_term param.now))
        (read_word history.now.alphabet (term_at derivation.old.table scope.for_self) word.now)) }
    ensures continues { ContinuesFrom (FitsHistory history.now) derivation.old derivation.new }
{
    let mut at = start(derivation, scope, param.head)?;
    for k in 0..param.steps.items().len() {
        let step = step_at(param, k);
        let part = first_symbols(word, k + 1);
        let named = declare(history, derivation, scope, part, step)?;
        let last = read_word(&history.alphabet, derivation, scope.for_self, part)?;
        at = equal_member(&history.alphabet, derivation, at, last, step, named)?;
    }
    Ok(at)
}

/// Answers an associated type that the step names, and states that what the word is read as conforms to its protocol. The rules of the
/// system show that there is one.
#[cycle(lines_of_rule)]
pub fn declare(
    history: &History,
    derivation: &mut Derivation,
    scope: ReadingPlace,
    word: &[Symbol],
    step: Step,
) -> Result<ProtocolName, AllocError>
    requires scope { AllowsScope history.now derivation.old scope }
    requires word { AllowsWord history.now.alphabet derivation.old
        (term_at derivation.old.table scope.for_self) word.now }
    requires shown { IsStepShown history.now.alphabet
        (rules_at history.now scope.system) word.now step }
    ensures given { IfOk result (IsGiven history.now.alphabet derivation.new
        (read_word history.now.alphabet
        (term_at derivation.old.table scope.for_self) word.now) step) }
    ensures continues { ContinuesFrom (FitsHistory history.now) derivation.old derivation.new }
{
    let last = read_word(&history.alphabet, derivation, scope.for_self, word)?;
    match known_step(history, derivation, last, step)? {
        Some(named) => Ok(named),
        None => {
            let rules = all_rules(history, scope.system);
            let shown = shown_step(derivation.alloc(), &history.alphabet, rules, word, step)?;
            let at = all_of(scope.system, rules);
            walk_along(history, derivation, at, scope.for_self, &shown.path)?;
            Ok(shown.named)
        }
    }
}
