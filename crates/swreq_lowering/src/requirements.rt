// The requirements that bounds and where clauses write.
ghost use Rattle.std.specs.Prelude.{◌≡◌, [], ◌∷◌, List, OnOk};
ghost use Rattle.swreq_param.specs.{Terms.{Term}, Tables.{Extends, IsOf, term_at}};
ghost use Rattle.swreq_lexicon.specs.swreq_derive.Facts.{requirement_of};
ghost use Rattle.swreq_lowering.specs.{Adding.{Adds}, ByTable.{HasIdsOf}, Requirements.{argument, arguments, bound_of, in_bound, in_bounds, equality}, Walk.{in_clause, in_requirement}, Types.{type_in}, Words.{primaries_named, words_by}};

use crate::context::Context;
use crate::ids::Written;
use crate::lookups::{name_of, primaries_named, proto_of};
use crate::spelling::spell;
use crate::words::Words;
use std::alloc::AllocError;
use swreq_lexicon::decl::{Entity, ReqDecl, Span, TypeDecl};
use swreq_lexicon::derive::Requirement;
use swreq_param::{ParamTable, Step, TermId};

/// A type parameter on which bounds are written, and the offset at which it is written.
#[derive(Clone, Copy, Debug)]
pub struct Subject {
    pub term: TermId,
    pub at: u32,
}

/// An argument of a bound: the primary name that it stands for, its type, and the offset of the bound.
#[derive(Clone, Copy)]
struct Argument<'a> {
    name: Span,
    given: &'a TypeDecl,
    at: u32,
}

/// What a bound requires of a type parameter, but for its arguments.
pub(crate) fn bound_of(words: &Words<'_>, subject: TermId, entity: &Entity) -> Requirement
    ensures means { (terms : List Term) → requirement_of terms result
        ≡ bound_of (words_by words.now) (term_at terms subject) entity.now }
    ensures of { (terms : List Term) → IsOf terms subject → HasIdsOf terms result }
{
    if entity.layout {
        Requirement::Layout { subject }
    } else {
        Requirement::Conf {
            subject,
            proto: proto_of(words, entity.span),
        }
    }
}

/// The equality of an argument with the primary associated type for which it stands.
#[tactic(auto, using(swreq_param::proofs::Growing::onward))]
fn add_argument(
    table: &mut ParamTable,
    words: &Words<'_>,
    context: Context,
    subject: TermId,
    written: &Argument<'_>,
    into: &mut Vec<Written>,
) -> Result<(), AllocError>
    requires { IsOf table.old subject }
    ensures adds { OnOk result (Adds table.old table.new into.old.items into.new.items
        (argument (words_by words.now) context
        (term_at table.old subject) written.now.at written.now.name written.now.given.now ∷ [])) }
    ensures extends { Extends table.old table.new }
{
    let left = table.member(subject, Step::Name(name_of(words, written.name)))?;
    let right = spell(table, words, context, written.given)?;
    into.push(Written {
        requirement: Requirement::Same { left, right },
        left_at: written.at,
        right_at: written.given.head.start,
    })?;
    Ok(())
}

/// The equalities of a bound's arguments with the primary associated types of its protocol, at the offset of the bound.
#[tactic(auto, using(swreq_param::proofs::Growing::onward))]
fn add_arguments(
    table: &mut ParamTable,
    words: &Words<'_>,
    context: Context,
    subject: TermId,
    entity: &Entity,
    into: &mut Vec<Written>,
) -> Result<(), AllocError>
    requires { IsOf table.old subject }
    ensures adds { OnOk result (Adds table.old table.new into.old.items into.new.items
        (arguments (words_by words.now) context (term_at table.old subject) entity.now.span.start
        (primaries_named (words_by words.now) entity.now.span) entity.now.args)) }
    ensures extends { Extends table.old table.new }
{
    let names = primaries_named(words, entity.span);
    let given = entity.args.items();
    let mut k = 0;
    while k < names.len() && k < given.len() {
        let a = Argument {
            name: names[k],
            given: &given[k],
            at: entity.span.start,
        };
        add_argument(table, words, context, subject, &a, into)?;
        k += 1;
    }
    Ok(())
}

/// What one bound requires of its subject.
fn add_bound(
    table: &mut ParamTable,
    words: &Words<'_>,
    context: Context,
    subject: Subject,
    entity: &Entity,
    into: &mut Vec<Written>,
) -> Result<(), AllocError>
    requires { IsOf table.old subject.term }
    ensures adds { OnOk result (Adds table.old table.new into.old.items into.new.items
        (in_bound (words_by words.now) context
        (term_at table.old subject.term) subject.at entity.now)) }
    ensures extends { Extends table.old table.new }
{
    into.push(Written {
        requirement: bound_of(words, subject.term, entity),
        left_at: subject.at,
        right_at: subject.at,
    })?;
    add_arguments(table, words, context, subject.term, entity, into)
}

/// What bounds require of their subject.
#[tactic(auto, using(swreq_param::proofs::Growing::onward))]
pub fn add_bounds(
    table: &mut ParamTable,
    words: &Words<'_>,
    context: Context,
    subject: Subject,
    bounds: &[Entity],
    into: &mut Vec<Written>,
) -> Result<(), AllocError>
    requires { IsOf table.old subject.term }
    ensures adds { OnOk result (Adds table.old table.new into.old.items into.new.items
        (in_bounds (words_by words.now) context
        (term_at table.old subject.term) subject.at bounds.now)) }
    ensures extends { Extends table.old table.new }
{
    for e in bounds {
        add_bound(table, words, context, subject, e, into)?;
    }
    Ok(())
}

/// Adds what `T == U` requires.
#[tactic(auto, using(swreq_param::proofs::Growing::onward))]
fn add_same(
    table: &mut ParamTable,
    words: &Words<'_>,
    context: Context,
    left: &TypeDecl,
    right: &TypeDecl,
    into: &mut Vec<Written>,
) -> Result<(), AllocError>
    ensures adds { OnOk result (Adds table.old table.new into.old.items into.new.items
        (equality (type_in (words_by words.now) context left.now) left.now.head.start
        (type_in (words_by words.now) context right.now) right.now.head.start ∷ [])) }
    ensures extends { Extends table.old table.new }
{
    let t = spell(table, words, context, left)?;
    let u = spell(table, words, context, right)?;
    into.push(Written {
        requirement: Requirement::Same { left: t, right: u },
        left_at: left.head.start,
        right_at: right.head.start,
    })?;
    Ok(())
}

/// Adds what `T: P & Q` requires.
#[tactic(auto, using(swreq_param::proofs::Growing::onward))]
fn add_subject(
    table: &mut ParamTable,
    words: &Words<'_>,
    context: Context,
    subject: &TypeDecl,
    bounds: &[Entity],
    into: &mut Vec<Written>,
) -> Result<(), AllocError>
    ensures adds { OnOk result (Adds table.old table.new into.old.items into.new.items
        (in_bounds (words_by words.now) context
        (type_in (words_by words.now) context subject.now) subject.now.head.start bounds.now)) }
    ensures extends { Extends table.old table.new }
{
    let t = spell(table, words, context, subject)?;
    let on = Subject {
        term: t,
        at: subject.head.start,
    };
    add_bounds(table, words, context, on, bounds, into)
}

/// Adds the requirements that are meant by a written one.
fn add_requirement(
    table: &mut ParamTable,
    words: &Words<'_>,
    context: Context,
    requirement: &ReqDecl,
    into: &mut Vec<Written>,
) -> Result<(), AllocError>
    ensures adds { OnOk result (Adds table.old table.new into.old.items into.new.items
        (in_requirement (words_by words.now) context requirement.now)) }
    ensures extends { Extends table.old table.new }
{
    match requirement {
        ReqDecl::Bound { subject, bounds } => {
            add_subject(table, words, context, subject, bounds.items(), into)
        }
        ReqDecl::Same { left, right } => add_same(table, words, context, left, right, into),
    }
}

/// Adds the requirements of a where clause.
#[tactic(auto, using(swreq_param::proofs::Growing::onward))]
pub fn add_clause(
    table: &mut ParamTable,
    words: &Words<'_>,
    context: Context,
    clause: &[ReqDecl],
    into: &mut Vec<Written>,
) -> Result<(), AllocError>
    ensures adds { OnOk result (Adds table.old table.new into.old.items into.new.items
        (in_clause (words_by words.now) context clause.now)) }
    ensures extends { Extends table.old table.new }
{
    for r in clause {
        add_requirement(table, words, context, r, into)?;
    }
    Ok(())
}
