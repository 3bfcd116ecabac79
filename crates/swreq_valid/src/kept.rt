//! The rules of the protocols by a part of their requirements, and which requirements are usable by them.
#![tactic(auto, using(swreq_symbols::proofs::OfTexts::text_over))]

ghost use Rattle.std.specs.{Prelude.{◌≡◌, ◌<◌, ◌++◌, ◌∷◌, [], IfOk, OnOk, length, map}, Bool.{if◌then◌else◌}};
ghost use Rattle.swreq_rounds.specs.Presents.{AreProtocolRules};
ghost use Rattle.swreq_symbols.specs.{Meaning.{facts_of, symbols_of}, Texts.{world_of}};
ghost use Rattle.swreq_world.specs.Closed.{AreIds};
ghost use Rattle.swreq_valid.specs.{Answers.{Answers, IsOnlyOutcome}, Flags.{Tells, chosen}, Keeping.{AreFlags, IsUsableBy, TellEach, kept_facts, kept_in, kept_plan}, Plans.{in_protocol}, Rounds.{AreRounds, last_rules, rules_of}};

use crate::basic::basic;
use crate::round::Rounds;
use crate::rounds::run_rounds;
use crate::stopping::limit_of_basic;
use crate::usable::is_usable;
use crate::wanted::{RoundRequirement, RoundStart};
use std::alloc::{AllocError, Global};
use swreq_complete::watch::Watch;
use swreq_complete::{CompleteRules, Failed, Limits};
use swreq_symbols::{Over, Text};
use swreq_text::Seq;
use swreq_world::World;
use swreq_world::derive::Requirement;
use swreq_world::param::ProtoId;

/// Which requirements of the protocols are kept: for each protocol, in written order, a flag for each of its requirements.
#[derive(Drop)]
pub struct Kept {
    pub lists: Seq<Seq<bool>>,
}

/// Puts the requirements of the protocol last whose flags are set.
fn add_kept(
    protocol: ProtoId,
    list: &[Requirement],
    flags: &[bool],
    wanted: &mut Vec<RoundRequirement>,
) -> Result<(), AllocError>
    requires { length flags.now ≡ length list.now }
    ensures { OnOk result
        (wanted.new.items ≡ wanted.old.items
        ++ map (in_protocol protocol) (chosen list.now flags.now)) }
{
    for k in 0..list.len() {
        let requirement = list[k];
        add_one(protocol, requirement, flags[k], wanted)?;
    }
    Ok(())
}

/// Puts the requirement of the protocol last, where its flag is set.
fn add_one(
    protocol: ProtoId,
    requirement: Requirement,
    kept: bool,
    wanted: &mut Vec<RoundRequirement>,
) -> Result<(), AllocError>
    ensures { OnOk result
        (wanted.new.items ≡ wanted.old.items
        ++ (if kept then in_protocol protocol requirement ∷ [] else [])) }
{
    if kept {
        wanted.push(RoundRequirement {
            over: Over::Protocol(protocol),
            requirement,
        })?;
    }
    Ok(())
}

/// The kept requirements of the protocols, protocols and requirements in written order.
fn kept_requirements(
    alloc: Global,
    world: &World,
    keep: &Kept,
) -> Result<Vec<RoundRequirement>, AllocError>
    requires ids { AreIds world.now.lexicon }
    requires keep { AreFlags world.now keep.now.lists }
    ensures { IfOk result
        (λ v. v.items ≡ kept_in world.now world.now.lexicon.written_order keep.now.lists) }
{
    let mut v = Vec::new(alloc);
    let lists = keep.lists.items();
    for k in 0..world.protocols() {
        let p = world.proto_at(k);
        let list = world.bare_requirements(p);
        let flags = &lists[k as usize];
        add_kept(p, list, flags.items(), &mut v)?;
    }
    Ok(v)
}

/// Runs the rounds of the protocols with the kept requirements and all basic equations.
fn run_kept<W: Watch>(
    alloc: Global,
    text: &Text<'_>,
    keep: &Kept,
    limits: Limits,
    watch: &mut W,
) -> Result<Rounds<'static>, Failed>
    requires keep { AreFlags text.now.world.now keep.now.lists }
    ensures answer { Answers limits (kept_plan (world_of text.now) keep.now.lists)
        (W.told watch.old) (W.told watch.new)
        (rules_of result) }
    ensures only { IsOnlyOutcome limits
        (kept_plan (world_of text.now) keep.now.lists) (rules_of result) }
    ensures rounds { IfOk result
        (AreRounds limits (kept_plan (world_of text.now) keep.now.lists)) }
    ensures rules { IfOk result
        (λ rounds. AreProtocolRules (symbols_of text.now.world.now.lexicon) (kept_facts
        (world_of text.now) keep.now.lists) (last_rules rounds)) }
{
    let basic = basic(alloc, text.world)?;
    let all = kept_requirements(alloc, text.world, keep)?;
    let start = RoundStart { basic, all, limits };
    run_rounds(alloc, text, None, &start, watch)
}

/// Runs the rounds of the protocols with the kept requirements.
pub(crate) fn complete_kept<W: Watch>(
    alloc: Global,
    text: &Text<'_>,
    keep: &Kept,
    limits: Limits,
    watch: &mut W,
) -> Result<Rounds<'static>, Failed>
    requires keep { AreFlags text.now.world.now keep.now.lists }
    ensures answer { Answers limits (kept_plan (world_of text.now) keep.now.lists)
        (W.told watch.old) (W.told watch.new)
        (rules_of result) }
    ensures only { IsOnlyOutcome limits
        (kept_plan (world_of text.now) keep.now.lists) (rules_of result) }
    ensures rounds { IfOk result
        (AreRounds limits (kept_plan (world_of text.now) keep.now.lists)) }
    ensures rules { IfOk result
        (λ rounds. AreProtocolRules (symbols_of text.now.world.now.lexicon) (kept_facts
        (world_of text.now) keep.now.lists) (last_rules rounds)) }
{
    match limit_of_basic(alloc, text.world, limits, watch) {
        Some(failed) => Err(failed),
        None => run_kept(alloc, text, keep, limits, watch),
    }
}

/// Which requirements of the protocol the rules show usable, by a flag for each.
fn usable_of(
    alloc: Global,
    text: &Text<'_>,
    rules: &CompleteRules<'_>,
    protocol: ProtoId,
) -> Result<Vec<bool>, AllocError>
    requires p { protocol.rank < length text.now.world.now.lexicon.protocols }
    ensures { IfOk result
        (λ v. Tells (IsUsableBy (world_of text.now) rules.now protocol) ((facts_of
        (world_of text.now)).of_protocol protocol) v.items) }
{
    let mut flags = Vec::new(alloc);
    let list = text.world.bare_requirements(protocol);
    for k in 0..list.len() {
        let requirement = list[k];
        let shown = is_usable(alloc, text, rules, Over::Protocol(protocol), requirement)?;
        flags.push(shown)?;
    }
    Ok(flags)
}

/// Which requirements of each protocol are usable, by rank of the protocol.
pub(crate) fn usable_lists(
    alloc: Global,
    text: &Text<'_>,
    rules: &CompleteRules<'_>,
) -> Result<Vec<Seq<bool>>, AllocError>
    ensures { IfOk result (λ v. TellEach (world_of text.now) rules.now v.items
        (length text.now.world.now.lexicon.protocols)) }
{
    let mut lists: Vec<Seq<bool>> = Vec::new(alloc);
    for rank in 0..text.world.protocols() {
        let flags = usable_of(alloc, text, rules, ProtoId { rank })?;
        let list = Seq::new(flags);
        lists.push(list)?;
    }
    Ok(lists)
}
