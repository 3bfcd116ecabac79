// Which protocol inherits which, by places in written order.
ghost use Rattle.std.specs.{Prelude.{◌≡◌, ◌++◌, map, length, IfOk, OnOk, MatchOption}, List.{flat_map}, Option.{option_to_list}};
ghost use Rattle.swreq_closure.specs.Chains.{AreWithin};
ghost use Rattle.swreq_names.specs.{Inheritance.{named_by, named_in, direct, LeadToDeclared}, Walk.{inherited_in, inherited_in_clause, walked_direct}};

use crate::declared::Declared;
use crate::words::word;
use std::alloc::{AllocError, Global};
use swreq_decl::{AssocDecl, Entity, ProtocolDecl, ReqDecl};
use swreq_text::Seq;

/// The protocol that is named, if one is.
fn named_by(text: &[u8], d: &Declared, e: &Entity) -> Option<usize>
    ensures { result ≡ named_by text.now d.now e.now }
{
    if e.layout {
        None
    } else {
        d.protocol_of(word(text, e.span))
    }
}

fn add_named(text: &[u8], d: &Declared, e: &Entity, into: &mut Vec<usize>) -> Result<(), AllocError>
    ensures { OnOk result
        (into.new.items ≡ into.old.items ++ option_to_list (named_by text.now d.now e.now)) }
{
    match named_by(text, d, e) {
        Some(place) => Ok(into.push(place)?),
        None => Ok(()),
    }
}

#[tactic(auto, using(crate::proofs::Pieces::pieces_more))]
fn add_bounds(
    text: &[u8],
    d: &Declared,
    entities: &[Entity],
    into: &mut Vec<usize>,
) -> Result<(), AllocError>
    ensures { OnOk result
        (into.new.items ≡ into.old.items ++ named_in text.now d.now entities.now) }
{
    for e in entities {
        add_named(text, d, e, into)?;
    }
    Ok(())
}

fn add_requirement(
    text: &[u8],
    d: &Declared,
    r: &ReqDecl,
    into: &mut Vec<usize>,
) -> Result<(), AllocError>
    ensures { OnOk result (into.new.items ≡ into.old.items ++ inherited_in text.now d.now r.now) }
{
    match r {
        ReqDecl::Bound { subject, bounds } => {
            if b"Self".as_slice() == word(text, subject.head) && subject.steps.items().is_empty() {
                add_bounds(text, d, bounds.items(), into)
            } else {
                Ok(())
            }
        }
        ReqDecl::Same { .. } => Ok(()),
    }
}

fn add_clause(
    text: &[u8],
    d: &Declared,
    clause: &[ReqDecl],
    into: &mut Vec<usize>,
) -> Result<(), AllocError>
    ensures { OnOk result
        (into.new.items ≡ into.old.items ++ inherited_in_clause text.now d.now clause.now) }
{
    for r in clause {
        add_requirement(text, d, r, into)?;
    }
    Ok(())
}

fn add_members(
    text: &[u8],
    d: &Declared,
    members: &[AssocDecl],
    into: &mut Vec<usize>,
) -> Result<(), AllocError>
    ensures { OnOk result (into.new.items ≡ into.old.items
        ++ flat_map (λ m. inherited_in_clause text.now d.now m.clause) members.now) }
{
    for m in members {
        add_clause(text, d, m.clause.items(), into)?;
    }
    Ok(())
}

/// The protocols that the protocol inherits directly.
fn direct(
    alloc: Global,
    text: &[u8],
    d: &Declared,
    p: &ProtocolDecl,
) -> Result<Seq<usize>, AllocError>
    ensures { IfOk result (λ places. places ≡ walked_direct text.now d.now p.now) }
{
    let mut into = Vec::new(alloc);
    add_bounds(text, d, p.inherits.items(), &mut into)?;
    add_clause(text, d, p.clause.items(), &mut into)?;
    add_members(text, d, p.members.items(), &mut into)?;
    Ok(Seq::new(into))
}

/// For each protocol, the protocols that it inherits directly, by places in written order. `d` has the names of the skeleton.
pub fn inheritance(
    alloc: Global,
    text: &[u8],
    d: &Declared,
    protocols: &[ProtocolDecl],
) -> Result<Vec<Seq<usize>>, AllocError>
    requires { length d.now.protocols ≡ length protocols.now }
    ensures is { IfOk result (λ steps. steps.items ≡ map (direct text.now d.now) protocols.now) }
    ensures within { IfOk result (λ steps. AreWithin steps.items) }
    ensures declared { IfOk result (λ steps. LeadToDeclared d.now.protocols steps.items) }
{
    let mut steps = Vec::new(alloc);
    for p in protocols {
        steps.push(direct(alloc, text, d, p)?)?;
    }
    Ok(steps)
}
