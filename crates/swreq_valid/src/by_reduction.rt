//! What reduction by rules shows of type parameters, where the rules need not be complete.
#![tactic(auto, using(swreq_symbols::proofs::OfTexts::text_over))]

ghost use Rattle.std.specs.Prelude.{◌≡◌, ◌↔◌, ◌<◌, length, IfOk, IsTrue};
ghost use Rattle.swreq_rounds.specs.swreq_param.{declared.ids.AssocId.{AssocId}, declared.ids.NameId.{NameId}, declared.ids.Step.TheVariants.{Bound, Name}};
ghost use Rattle.swreq_rounds.specs.swreq_derive.Facts.{requirement_of};
ghost use Rattle.swreq_complete.specs.swreq_rule.Reduction.{Reduces};
ghost use Rattle.swreq_complete.specs.Alike.{ReduceAlike};
ghost use Rattle.swreq_symbols.specs.Texts.{world_of, IsTypeOfText, IsRequirementOfText, term_of};
ghost use Rattle.swreq_world.specs.Closed.{IsStepOf};
ghost use Rattle.swreq_valid.specs.ByReduction.{HasStepOf, IsGivenOf, ReducesConformance, ReducesUsable, ReducesValid};

use std::alloc::{AllocError, Global};
use swreq_complete::RewritingSystem;
use swreq_complete::word::{Symbol, are_same};
use swreq_symbols::{Over, Text, equation};
use swreq_world::World;
use swreq_world::derive::Requirement;
use swreq_world::param::{AssocId, NameId, ProtoId, Step, TermId};

/// Over what type parameters are read, and the rules by which their words are reduced.
#[derive(Clone, Copy)]
pub(crate) struct ByReduction<'a, 'b> {
    pub text: Text<'a>,
    pub rules: &'a RewritingSystem<'b>,
    pub over: Over,
}

/// The word to which a word reduces.
fn reduct(
    alloc: Global,
    rules: &RewritingSystem<'_>,
    word: &[Symbol],
) -> Result<Vec<Symbol>, AllocError>
    ensures { IfOk result (λ v. Reduces rules.now word.now v.items) }
{
    let mut v = Vec::from_slice(alloc, word)?;
    rules.reduce(&mut v);
    Ok(v)
}

/// Whether two words reduce to one.
fn reduce_alike(
    alloc: Global,
    rules: &RewritingSystem<'_>,
    word: &[Symbol],
    other: &[Symbol],
) -> Result<bool, AllocError>
    ensures { IfOk result (λ b. IsTrue b ↔ ReduceAlike rules.now word.now other.now) }
{
    let first = reduct(alloc, rules, word)?;
    let last = reduct(alloc, rules, other)?;
    Ok(are_same(&first, &last))
}

/// Whether reduction shows that a type parameter conforms to a protocol.
fn conforms(
    alloc: Global,
    by: &ByReduction<'_, '_>,
    subject: TermId,
    proto: ProtoId,
) -> Result<bool, AllocError>
    requires t { IsTypeOfText by.now.text subject }
    requires proto { proto.rank < length by.now.text.world.now.lexicon.protocols }
    ensures { IfOk result
        (λ b. IsTrue b ↔ ReducesConformance by.now.text.world.now.lexicon by.now.rules.now
        by.now.over
        (term_of by.now.text subject) proto) }
{
    let requirement = Requirement::Conf { subject, proto };
    let owner = by.over.owner();
    let (left, right) = equation(alloc, &by.text, owner, &requirement)?;
    reduce_alike(alloc, by.rules, left.symbols(), right.symbols())
}

/// Whether reduction shows that a type parameter conforms to the protocol of an associated type.
fn has_assoc(
    alloc: Global,
    by: &ByReduction<'_, '_>,
    subject: TermId,
    assoc: AssocId,
) -> Result<bool, AllocError>
    requires t { IsTypeOfText by.now.text subject }
    requires d { assoc.rank < length by.now.text.world.now.lexicon.associated }
    ensures { IfOk result
        (λ b. IsTrue b ↔ HasStepOf by.now.text.world.now.lexicon by.now.rules.now by.now.over
        (term_of by.now.text subject) (Bound assoc)) }
{
    let declared = by.text.world.assoc(assoc);
    conforms(alloc, by, subject, declared.proto)
}

/// Whether it is an associated type with this name, to whose protocol reduction shows that a type parameter conforms.
fn is_given(
    alloc: Global,
    by: &ByReduction<'_, '_>,
    subject: TermId,
    name: NameId,
    assoc: AssocId,
) -> Result<bool, AllocError>
    requires t { IsTypeOfText by.now.text subject }
    requires d { assoc.rank < length by.now.text.world.now.lexicon.associated }
    ensures { IfOk result
        (λ b. IsTrue b ↔ IsGivenOf by.now.text.world.now.lexicon by.now.rules.now by.now.over
        (term_of by.now.text subject) name assoc) }
{
    let declared = by.text.world.assoc(assoc);
    if declared.name.rank == name.rank {
        conforms(alloc, by, subject, declared.proto)
    } else {
        Ok(false)
    }
}

/// The number of associated types.
fn associated(world: &World) -> u32
    ensures { result ≡ length world.now.lexicon.associated }
{
    world.lexicon().associated()
}

/// Whether some associated type has this name, to whose protocol reduction shows that a type parameter conforms.
fn has_name(
    alloc: Global,
    by: &ByReduction<'_, '_>,
    subject: TermId,
    name: NameId,
) -> Result<bool, AllocError>
    requires t { IsTypeOfText by.now.text subject }
    ensures { IfOk result
        (λ b. IsTrue b ↔ HasStepOf by.now.text.world.now.lexicon by.now.rules.now by.now.over
        (term_of by.now.text subject) (Name name)) }
{
    for rank in 0..associated(by.text.world) {
        if is_given(alloc, by, subject, name, AssocId { rank })? {
            return Ok(true);
        }
    }
    Ok(false)
}

/// Whether the step can follow a type parameter.
fn has_step(
    alloc: Global,
    by: &ByReduction<'_, '_>,
    subject: TermId,
    step: Step,
) -> Result<bool, AllocError>
    requires t { IsTypeOfText by.now.text subject }
    requires step { IsStepOf by.now.text.world.now.lexicon step }
    ensures { IfOk result
        (λ b. IsTrue b ↔ HasStepOf by.now.text.world.now.lexicon by.now.rules.now by.now.over
        (term_of by.now.text subject) step) }
{
    match step {
        Step::Bound(d) => has_assoc(alloc, by, subject, d),
        Step::Name(a) => has_name(alloc, by, subject, a),
    }
}

/// Whether reduction shows that a type parameter is valid.
fn is_valid(alloc: Global, by: &ByReduction<'_, '_>, subject: TermId) -> Result<bool, AllocError>
    requires t { IsTypeOfText by.now.text subject }
    ensures { IfOk result (λ b. IsTrue b
        ↔ ReducesValid (world_of by.now.text) by.now.rules.now by.now.over
        (term_of by.now.text subject)) }
{
    match by.text.table.split(subject) {
        None => Ok(by.over.has(by.text.table.head(subject))),
        Some((base, step)) => {
            if is_valid(alloc, by, base)? {
                has_step(alloc, by, base, step)
            } else {
                Ok(false)
            }
        }
    }
}

/// Whether reduction shows that the type parameters of a requirement are valid.
pub(crate) fn is_usable(
    alloc: Global,
    by: &ByReduction<'_, '_>,
    requirement: Requirement,
) -> Result<bool, AllocError>
    requires want { IsRequirementOfText by.now.text requirement }
    ensures { IfOk result (λ b. IsTrue b
        ↔ ReducesUsable (world_of by.now.text) by.now.rules.now by.now.over
        (requirement_of by.now.text.table.now requirement)) }
{
    match requirement {
        Requirement::Conf { subject, .. } => is_valid(alloc, by, subject),
        Requirement::Layout { subject } => is_valid(alloc, by, subject),
        Requirement::Same { left, right } => {
            if is_valid(alloc, by, left)? {
                is_valid(alloc, by, right)
            } else {
                Ok(false)
            }
        }
    }
}
