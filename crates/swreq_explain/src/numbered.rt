//! Written requirements with their numbers, and which round uses one first: the rules of the round before it show its type parameters valid.
ghost use Rattle.std.specs.Prelude.{◌≡◌, ◌↔◌, ◌<◌, ◌≤◌, ◌^◌, IsTrue, Some, length, slice_get, ◌++◌, IfOk, OnOk};
ghost use Rattle.swreq_explain.specs.{declared.numbered.Numbered.{Numbered as NumberedView}, Uses.{IsShownBy, Uses, UsesFirst}, Numbering.{AreMadeOf, numbered_from, numbered_in}};

use std::alloc::{AllocError, Global};
use swreq_machine::derive::Requirement;
use swreq_machine::param::ProtoId;
use swreq_machine::symbols::Text;
use swreq_machine::valid::Rounds;

/// What the systems of rounds are made from: the rounds of the protocols, or those of a list. The requirements are of the text, each round
/// has a flag for each of them, and each round's system has a place of 64 bits.
#[derive(Clone, Copy)]
pub(crate) struct Makings<'a> {
    pub alloc: Global,
    pub text: Text<'a>,
    /// Whether the rounds have the basic equations.
    pub basic: bool,
    /// The written requirements that the rounds may use.
    pub all: &'a [Numbered],
    pub rounds: &'a Rounds<'a>,
    /// The first `base` rules of each round are those of the system before the first round's.
    pub base: usize,
    /// The place of the first round's system.
    pub first: usize,
    ghost made: { ∥ AreMadeOf text all.now rounds.now first ∥₁ },
}

/// Whether a round uses the requirement at this place.
pub(crate) fn uses(makings: Makings<'_>, round: usize, place: usize) -> bool
    requires round { round < length makings.rounds.now }
    requires place { place < length makings.all.now }
    ensures { IsTrue result ↔ Uses makings.entry.rounds.now round place }
{
    let used = makings.rounds.used(round);
    used[place]
}

/// The first round that uses the requirement at this place, which this round uses.
fn first_use(makings: Makings<'_>, round: usize, place: usize) -> usize
    requires { Uses makings.rounds.now round place }
    ensures first { UsesFirst makings.entry.rounds.now result place }
    ensures within { result ≤ round }
{
    for earlier in 0..round {
        if uses(makings, earlier, place) {
            return earlier;
        }
    }
    round
}

/// The place of the system whose rules show the type parameters of the requirement at this place valid. The round uses the requirement.
pub(crate) fn shown_by(makings: Makings<'_>, round: usize, place: usize) -> usize
    requires { Uses makings.rounds.now round place }
    ensures { (x : NumberedView) → slice_get makings.entry.all.now place ≡ Some x
        → IsShownBy makings.entry.all.now makings.entry.rounds.now makings.entry.first round x
        result }
{
    let joined = makings.first + first_use(makings, round, place);
    joined.saturating_sub(1)
}

/// A written requirement with its number, counted from 1, among the requirements of its owner, or of the list if it has no owner.
#[derive(Clone, Copy, Debug)]
pub(crate) struct Numbered {
    pub owner: Option<ProtoId>,
    pub number: u32,
    pub requirement: Requirement,
}

/// Puts the requirements last, numbered from 1.
pub(crate) fn add_numbered(
    owner: Option<ProtoId>,
    list: &[Requirement],
    numbered: &mut Vec<Numbered>,
) -> Result<(), AllocError>
    requires { length list.now < 2 ^ 32 }
    ensures { OnOk result
        (numbered.new.items ≡ numbered.old.items ++ numbered_from owner 1 list.now) }
{
    for k in 0..list.len() {
        let requirement = list[k];
        numbered.push(Numbered {
            owner,
            number: k as u32 + 1,
            requirement,
        })?;
    }
    Ok(())
}

/// The requirements of all protocols, with their numbers. Protocols and requirements stand in written order.
pub(crate) fn all_numbered(alloc: Global, text: &Text<'_>) -> Result<Vec<Numbered>, AllocError>
    ensures { IfOk result (λ v. v.items
        ≡ numbered_in text.now.world.now text.now.world.now.lexicon.written_order) }
{
    let mut numbered = Vec::new(alloc);
    for k in 0..text.world.protocols() {
        let p = text.world.proto_at(k);
        add_numbered(Some(p), text.world.bare_requirements(p), &mut numbered)?;
    }
    Ok(numbered)
}
