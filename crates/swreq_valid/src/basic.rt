//! The basic equations of a text, and the requirements of its protocols.
ghost use Rattle.std.specs.Prelude.{◌≡◌, ◌<◌, ◌≤◌, ◌++◌, ◌∷◌, [], ℕ, Some, map, slice_get, IfOk, OnOk};
ghost use Rattle.swreq_world.specs.swreq_lexicon.declared.pair.ProtocolName.{ProtocolName};
ghost use Rattle.swreq_rounds.specs.Given as given;
ghost use Rattle.swreq_symbols.specs.Meaning.{symbols_of};
ghost use Rattle.swreq_world.specs.Closed.{AreIds};
ghost use Rattle.swreq_valid.specs.{Early.{IsFront}, Named.{IsNameAdded}, Plans.{in_protocol, in_protocols}};

use crate::wanted::RoundRequirement;
use std::alloc::{AllocError, Global};
use swreq_complete::word::{Symbol, Word};
use swreq_symbols::Over;
use swreq_world::World;
use swreq_world::derive::Requirement;
use swreq_world::param::{NameId, ProtoId};

/// The word of these symbols.
fn word_of(alloc: Global, symbols: &[Symbol]) -> Result<Word, AllocError>
    ensures { IfOk result (λ w. w ≡ symbols.now) }
{
    let symbols = Vec::from_slice(alloc, symbols)?;
    Ok(Word::new(symbols))
}

/// `[P][P] = [P]`, the equation of the symbol of protocol P.
fn doubled(alloc: Global, protocol: ProtoId) -> Result<(Word, Word), AllocError>
    ensures left { IfOk result (λ e. e.0 ≡ (given.doubled protocol).0) }
    ensures right { IfOk result (λ e. e.1 ≡ (given.doubled protocol).1) }
{
    let left = word_of(
        alloc,
        &[Symbol::Proto(protocol.rank), Symbol::Proto(protocol.rank)],
    )?;
    let right = word_of(alloc, &[Symbol::Proto(protocol.rank)])?;
    Ok((left, right))
}

/// `[P]·A = [P:A]`, where the name A is of protocol P and `[P:A]` has this rank.
fn named(
    alloc: Global,
    protocol: ProtoId,
    name: NameId,
    rank: u64,
) -> Result<(Word, Word), AllocError>
    ensures left { IfOk result
        (λ e. e.0 ≡ (given.named protocol (record { proto = protocol; name = name }) rank).0) }
    ensures right { IfOk result
        (λ e. e.1 ≡ (given.named protocol (record { proto = protocol; name = name }) rank).1) }
{
    let left = word_of(
        alloc,
        &[Symbol::Proto(protocol.rank), Symbol::Name(name.rank)],
    )?;
    let right = word_of(alloc, &[Symbol::Member(rank)])?;
    Ok((left, right))
}

/// Puts the equation of a member name of the protocol last, if this name is one.
fn add_name(
    alloc: Global,
    world: &World,
    protocol: ProtoId,
    name: NameId,
    equations: &mut Vec<(Word, Word)>,
) -> Result<(), AllocError>
    ensures { OnOk result
        (IsNameAdded world.now.lexicon protocol name equations.old.items equations.new.items) }
{
    match world.member_rank(protocol, name) {
        None => Ok(()),
        Some(rank) => {
            let e = named(alloc, protocol, name, rank)?;
            equations.push(e)?;
            Ok(())
        }
    }
}

/// More than the rank of each member name.
fn names_end(world: &World) -> u64
    requires { AreIds world.now.lexicon }
    ensures above { (k : ℕ) (s : ProtocolName) → slice_get world.now.lexicon.symbols k ≡ Some s
        → s.name.rank < result }
    ensures within { result ≤ 4294967296 }
{
    let count = world.members();
    if count == 0 {
        return 0;
    }
    u64::from(world.member_at(count - 1).name.rank) + 1
}

/// Puts the equations of the member names of the protocol last, by the ranks of their symbols, where all names have ranks below `end`.
fn add_names(
    alloc: Global,
    world: &World,
    end: u64,
    protocol: ProtoId,
    equations: &mut Vec<(Word, Word)>,
) -> Result<(), AllocError>
    requires ids { AreIds world.now.lexicon }
    requires above { (k : ℕ) (s : ProtocolName)
        → slice_get world.now.lexicon.symbols k ≡ Some s → s.name.rank < end }
    requires within { end ≤ 4294967296 }
    ensures { OnOk result (equations.new.items ≡ equations.old.items
        ++ given.named_from protocol 0 (symbols_of world.now.lexicon).members) }
{
    for rank in 0..end {
        let name = NameId { rank: rank as u32 };
        add_name(alloc, world, protocol, name, equations)?;
    }
    Ok(())
}

/// Puts the basic equations of the protocol last, where all names have ranks below `end`.
fn add_protocol(
    alloc: Global,
    world: &World,
    end: u64,
    protocol: ProtoId,
    equations: &mut Vec<(Word, Word)>,
) -> Result<(), AllocError>
    requires ids { AreIds world.now.lexicon }
    requires above { (k : ℕ) (s : ProtocolName)
        → slice_get world.now.lexicon.symbols k ≡ Some s → s.name.rank < end }
    requires within { end ≤ 4294967296 }
    ensures { OnOk result (equations.new.items ≡ equations.old.items
        ++ (given.doubled protocol
        ∷ given.named_from protocol 0 (symbols_of world.now.lexicon).members)) }
{
    let e = doubled(alloc, protocol)?;
    equations.push(e)?;
    add_names(alloc, world, end, protocol, equations)
}

/// The basic equations: for each protocol in written order the one of its symbol, and then those of its member names.
pub(crate) fn basic(alloc: Global, world: &World) -> Result<Vec<(Word, Word)>, AllocError>
    requires { AreIds world.now.lexicon }
    ensures { IfOk result (λ v. v.items ≡ given.basic_equations (symbols_of world.now.lexicon)) }
{
    let end = names_end(world);
    let mut v = Vec::new(alloc);
    for k in 0..world.protocols() {
        let p = world.proto_at(k);
        add_protocol(alloc, world, end, p, &mut v)?;
    }
    Ok(v)
}

/// The basic equations of the first protocols in written order: those of all, or more than `enough`.
pub(crate) fn first_basic(
    alloc: Global,
    world: &World,
    enough: u32,
) -> Result<Vec<(Word, Word)>, AllocError>
    requires { AreIds world.now.lexicon }
    ensures { IfOk result
        (λ v. IsFront v.items (given.basic_equations (symbols_of world.now.lexicon))) }
{
    let end = names_end(world);
    let mut v = Vec::new(alloc);
    for k in 0..world.protocols() {
        if v.len() > enough as usize {
            return Ok(v);
        }
        let p = world.proto_at(k);
        add_protocol(alloc, world, end, p, &mut v)?;
    }
    Ok(v)
}

/// Puts the requirements of the protocol last.
fn add_requirements(
    protocol: ProtoId,
    list: &[Requirement],
    wanted: &mut Vec<RoundRequirement>,
) -> Result<(), AllocError>
    ensures { OnOk result
        (wanted.new.items ≡ wanted.old.items ++ map (in_protocol protocol) list.now) }
{
    for k in 0..list.len() {
        let requirement = list[k];
        wanted.push(RoundRequirement {
            over: Over::Protocol(protocol),
            requirement,
        })?;
    }
    Ok(())
}

/// The requirements of the protocols, protocols and requirements in written order.
pub(crate) fn requirements(
    alloc: Global,
    world: &World,
) -> Result<Vec<RoundRequirement>, AllocError>
    requires { AreIds world.now.lexicon }
    ensures { IfOk result (λ v. v.items ≡ in_protocols world.now world.now.lexicon.written_order) }
{
    let mut v = Vec::new(alloc);
    for k in 0..world.protocols() {
        let p = world.proto_at(k);
        add_requirements(p, world.bare_requirements(p), &mut v)?;
    }
    Ok(v)
}
