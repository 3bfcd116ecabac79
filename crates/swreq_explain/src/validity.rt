//! Type parameters of a list, read in a derivation, and how it is stated that they are valid.
ghost use Rattle.std.specs.Prelude.{IfOk, ◌≡◌, OnOk};
ghost use Rattle.swreq_machine.specs.{swreq_param.{Tables.{term_at, IsOf}, Owned.{as_term}, Terms.Term.{Member}}, swreq_derive.Derivation.{TermRequirement.{Equals}, TermStatement.{IsValid}}};
ghost use Rattle.swreq_machine.specs.swreq_derive.Derivation.TermStatement.{Requires};
ghost use Rattle.swreq_derivation.specs.UnderWay.{AreEqualIds, ContinuesFrom, States};
ghost use Rattle.swreq_births.specs.Systems.{FitsHistory};
ghost use Rattle.swreq_explain.specs.Stating.{CanRead, IsReadAt, IsSplitOf, alphabet_at};
ghost use Rattle.swreq_readings.specs.Readable.{IsGiven};

use std::alloc::{AllocError, Global};
use swreq_births::{History, ReadingPlace, declare, read_type};
use swreq_derivation::{Bound, Derivation, add_generic, add_member, add_reflex, add_same_bound};
use swreq_machine::lexicon::ProtocolName;
use swreq_machine::param::{Step, TermId, TypeParam};
use swreq_machine::word::Symbol;
use swreq_readings::read_word;
use swreq_text::Seq;

/// What requirements of a list are stated by: the rules of a system of the history. Words are read after `t`. Words of a list begin with
/// generic parameters, so any type parameter will do for `t`.
#[derive(Clone, Copy)]
pub(crate) struct RoundReader<'a> {
    pub history: &'a History<'a>,
    pub system: usize,
    pub t: TermId,
}

/// A type parameter of a requirement, with its word.
#[derive(Clone, Copy)]
pub(crate) struct WordOfType<'a> {
    pub param: &'a TypeParam,
    pub word: &'a [Symbol],
}

/// The id of a type parameter, and the id of the type parameter that its word is read as.
#[derive(Clone, Copy)]
pub(crate) struct ReadAs {
    pub itself: TermId,
    pub word: TermId,
}

/// States that the type parameter equals the one that its word is read as. Answers the ids of the two.
pub(crate) fn read_side(
    reader: RoundReader<'_>,
    derivation: &mut Derivation,
    side: WordOfType<'_>,
) -> Result<ReadAs, AllocError>
    requires { CanRead reader derivation.old side }
    ensures read { IfOk result
        (IsReadAt reader.entry side.entry
        (term_at derivation.old.table reader.entry.t) derivation.new) }
    ensures continues { ContinuesFrom (FitsHistory reader.entry.history.now) derivation.old
        derivation.new }
{
    let scope = ReadingPlace {
        system: reader.system,
        owner: None,
        for_self: reader.t,
    };
    let itself = read_type(reader.history, derivation, scope, side.param, side.word)?;
    let word = read_word(&reader.history.alphabet, derivation, reader.t, side.word)?;
    Ok(ReadAs { itself, word })
}

/// The type parameter without its last step, and that step, or None for a generic parameter.
fn split(alloc: Global, t: &TypeParam) -> Result<Option<(TypeParam, Step)>, AllocError>
    ensures { IfOk result (IsSplitOf t.now) }
{
    match t.steps.items() {
        [] => Ok(None),
        [front @ .., last] => {
            let steps = Vec::from_slice(alloc, front)?;
            let (head, steps) = (t.head, Seq::new(steps));
            Ok(Some((TypeParam { head, steps }, *last)))
        }
    }
}

/// States that a member is valid. Its step names an associated type, its base equals a type parameter, and a line states that this type
/// parameter conforms to the protocol of the associated type. Answers the id of the member.
fn validate_member(
    reader: RoundReader<'_>,
    derivation: &mut Derivation,
    base: ReadAs,
    step: Step,
    named: ProtocolName,
) -> Result<TermId, AllocError>
    requires base { AreEqualIds derivation.old base.itself base.word }
    requires given { IsGiven (alphabet_at reader) derivation.old
        (term_at derivation.old.table base.word) step named }
    ensures is_of { IfOk result (IsOf derivation.new.table) }
    ensures stands { IfOk result
        (λ v. term_at derivation.new.table v ≡ Member
        (term_at derivation.old.table base.itself) step) }
    ensures says { OnOk result (States derivation.new (IsValid (Member (term_at
        derivation.old.table base.itself) step))) }
    ensures continues { ContinuesFrom (FitsHistory reader.entry.history.now) derivation.old
        derivation.new }
{
    let v = derivation.member(base.itself, step)?;
    let bound = Bound::Protocol(named.proto);
    add_same_bound(derivation, base.itself, base.word, bound)?;
    let of = (named.proto, named.name);
    add_member(derivation, base.itself, of, step, v)?;
    Ok(v)
}

/// States that a type parameter of the list is valid. Answers its id.
fn validate(
    reader: RoundReader<'_>,
    derivation: &mut Derivation,
    side: WordOfType<'_>,
) -> Result<TermId, AllocError>
    requires { CanRead reader derivation.old side }
    ensures is_of { IfOk result (IsOf derivation.new.table) }
    ensures stands { IfOk result
        (λ v. term_at derivation.new.table v ≡ as_term side.entry.param.now) }
    ensures says { OnOk result (States derivation.new (IsValid (as_term side.entry.param.now))) }
    ensures continues { ContinuesFrom (FitsHistory reader.entry.history.now) derivation.old
        derivation.new }
{
    match split(derivation.alloc(), side.param)? {
        None => {
            let t = derivation.param(side.param.head)?;
            add_generic(derivation, t)?;
            Ok(t)
        }
        Some((base, step)) => {
            let front = &side.word[..side.word.len() - 1];
            let part = WordOfType {
                param: &base,
                word: front,
            };
            let ids = read_side(reader, derivation, part)?;
            let scope = ReadingPlace {
                system: reader.system,
                owner: None,
                for_self: reader.t,
            };
            let named = declare(reader.history, derivation, scope, front, step)?;
            let v = validate_member(reader, derivation, ids, step, named)?;
            Ok(v)
        }
    }
}

/// States that a type parameter of the list equals itself.
pub(crate) fn reflect(
    reader: RoundReader<'_>,
    derivation: &mut Derivation,
    side: WordOfType<'_>,
) -> Result<(), AllocError>
    requires { CanRead reader derivation.old side }
    ensures says { OnOk result (States derivation.new
        (Requires (Equals (as_term side.entry.param.now) (as_term side.entry.param.now)))) }
    ensures continues { ContinuesFrom (FitsHistory reader.entry.history.now) derivation.old
        derivation.new }
{
    let t = validate(reader, derivation, side)?;
    add_reflex(derivation, t)
}
