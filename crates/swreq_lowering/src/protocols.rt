// The requirements of protocols.
ghost use Rattle.std.specs.Prelude.{OnOk, IfOk};
ghost use Rattle.swreq_param.specs.Tables.{Extends};
ghost use Rattle.swreq_lowering.specs.{Adding.{Adds, Lists}, Requirements.{in_protocol}, Walk.{in_member, in_members}, Words.{words_by}};

use crate::context::Context;
use crate::ids::Written;
use crate::lookups::name_of;
use crate::requirements::{Subject, add_bounds, add_clause};
use crate::spelling::SELF;
use crate::words::Words;
use std::alloc::{AllocError, Global};
use swreq_lexicon::decl::{AssocDecl, ProtocolDecl};
use swreq_param::{ParamTable, Step};

/// Adds the requirements that an associated type states.
#[tactic(auto, using(swreq_param::proofs::Growing::onward))]
fn add_member(
    table: &mut ParamTable,
    words: &Words<'_>,
    member: &AssocDecl,
    into: &mut Vec<Written>,
) -> Result<(), AllocError>
    ensures adds { OnOk result (Adds table.old table.new into.old.items into.new.items
        (in_member (words_by words.now) member.now)) }
    ensures extends { Extends table.old table.new }
{
    let context = Context::Protocol;
    let base = table.param(SELF)?;
    let term = table.member(base, Step::Name(name_of(words, member.name)))?;
    let subject = Subject {
        term,
        at: member.name.start,
    };
    add_bounds(
        table,
        words,
        context,
        subject,
        member.inherits.items(),
        into,
    )?;
    add_clause(table, words, context, member.clause.items(), into)
}

#[tactic(auto, using(swreq_param::proofs::Growing::onward))]
fn add_members(
    table: &mut ParamTable,
    words: &Words<'_>,
    members: &[AssocDecl],
    into: &mut Vec<Written>,
) -> Result<(), AllocError>
    ensures adds { OnOk result (Adds table.old table.new into.old.items into.new.items
        (in_members (words_by words.now) members.now)) }
    ensures extends { Extends table.old table.new }
{
    for m in members {
        add_member(table, words, m, into)?;
    }
    Ok(())
}

/// The requirements of a protocol, in written order.
#[tactic(auto, using(swreq_param::proofs::Growing::onward))]
pub fn of_protocol(
    alloc: Global,
    table: &mut ParamTable,
    words: &Words<'_>,
    protocol: &ProtocolDecl,
) -> Result<Vec<Written>, AllocError>
    ensures lists { IfOk result
        (λ v. Lists table.old table.new (in_protocol (words_by words.now) protocol.now) v.items) }
    ensures extends { Extends table.old table.new }
{
    let context = Context::Protocol;
    let mut into = Vec::new(alloc);
    let base = table.param(SELF)?;
    let subject = Subject {
        term: base,
        at: protocol.name.start,
    };
    add_bounds(
        table,
        words,
        context,
        subject,
        protocol.inherits.items(),
        &mut into,
    )?;
    add_clause(table, words, context, protocol.clause.items(), &mut into)?;
    add_members(table, words, protocol.members.items(), &mut into)?;
    Ok(into)
}
