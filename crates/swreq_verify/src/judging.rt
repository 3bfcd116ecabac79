// What is said of derivations.
#![tactic(auto, using(swreq_symbols::proofs::OfTexts::text_over))]

ghost use Rattle.std.specs.Prelude.{◌≡◌, ◌<◌, ◌↔◌, ◌++◌, ◌∷◌, [], IfOk, IfSome, IsTrue, List, MatchOption, length, map};
ghost use Rattle.swreq_world.specs.swreq_derive.{declared.lines.Line.{Line}, Derivation.TermStatement.{Requires}, Facts.{requirement_of}};
ghost use Rattle.swreq_world.specs.swreq_lowering.ByTable.{query_by};
ghost use Rattle.swreq_symbols.specs.{Known.{IsQueryIn}, Texts.{world_of}};
ghost use Rattle.swreq_world.specs.Worlds.{signature_at};
ghost use Rattle.swreq_verify.specs.{Claims.{IsFoundOf, sections_of}, Judgements.{EndsIn, IsJudged}, Laying.{IsSectionOver, section_of}, Listing.{IsListOf}, Outputs.{AreJudged, IsSaidAt}};

use crate::listing::{Listed, list_of};
use crate::reading::Section;
use crate::turns::turns_of;
use std::alloc::{AllocError, Global};
use std::marker::Model;
use swreq_symbols::Text;
use swreq_world::FunctionFacts;
use swreq_world::derive::{Line, Requirement, Statement, check};
use swreq_world::lowering::{Asks, FuncId, Query};

/// What is said of the derivation under a query.
#[derive(Clone, Copy, Debug, PartialEq, Eq)]
pub enum Judgement {
    /// The query asks for a type or a signature, or the heading is not `yes`.
    Skipped,
    /// This line is the first that is no instance of its rule over the lines before it.
    BadLine { line: usize },
    /// The lines are a derivation that ends in what the query asks.
    Derived,
    /// The lines are a derivation that does not.
    NotThis,
}

/// The statement of the last line.
fn last_statement(lines: &[Line]) -> Option<Statement>
    ensures { MatchOption result
        (lines.now ≡ [])
        (λ st. (before : List Line) × (last : Line) × (lines.now ≡ before ++ last ∷ [])
        × (last.statement ≡ st)) }
{
    match lines {
        [] => None,
        [.., last] => Some(last.statement),
    }
}

fn is_same(a: Statement, b: Statement) -> bool
    ensures { IsTrue result ↔ (a ≡ b) }
{
    a == b
}

/// A section that is to derive a requirement from the list of a signature.
#[derive(Drop)]
struct Claim<'t, 's> {
    text: Text<'t>,
    f: FuncId,
    r: Requirement,
    section: &'s Section<'s>,
}

impl<'t, 's> Model for Claim<'t, 's> {
    ghost use Rattle.std.specs.Coded.{codes};
    ghost use Rattle.swreq_world.specs.swreq_param.Codes.{term_code};
    ghost use Rattle.swreq_verify.specs.Claims.{ClaimView, IsClaim};

    ghost Value = { ClaimView };

    ghost coded = { Prim.hlevel (codes, term_code) };

    ghost view = { λ c. record { text = c.text; f = c.f; r = c.r; section = c.section.now } };

    ghost invariant = { λ c.
        IsClaim (record { text = c.text; f = c.f; r = c.r; section = c.section.now }) };
}

/// Whether there is a last line, and its statement is that the requirement holds.
fn ends_in(claim: &Claim<'_, '_>) -> bool
    ensures { IsTrue result
        ↔ EndsIn (section_of claim.now.text.table.now claim.now.section).derivation
        (Requires (requirement_of claim.now.text.table.now claim.now.r)) }
{
    // Where two type parameters are equal, so are their ids.
    let _count = claim.text.table.len();
    match last_statement(&claim.section.derivation) {
        None => false,
        Some(last) => is_same(last, Statement::Holds { r: claim.r }),
    }
}

/// What is said of a claim, by the list of its signature.
fn judge(claim: &Claim<'_, '_>, list: &[Requirement]) -> Judgement
    requires { list.now ≡ map (λ r. r.requirement)
        (signature_at claim.now.text.world.now claim.now.f).requirements }
    ensures { IsFoundOf claim.now result }
{
    let facts = FunctionFacts::of(claim.text.world, claim.f, list);
    match check(&facts, claim.text.table, &claim.section.derivation) {
        Err(bad) => Judgement::BadLine { line: bad.line },
        Ok(()) => {
            if ends_in(claim) {
                Judgement::Derived
            } else {
                Judgement::NotThis
            }
        }
    }
}

/// A judgement, and a list that is kept for the next one.
#[derive(Drop)]
struct Said {
    judgement: Judgement,
    kept: Option<Listed>,
}

/// What is said of a claim.
fn answer(alloc: Global, claim: &Claim<'_, '_>, kept: Option<Listed>) -> Result<Said, AllocError>
    requires { IfSome kept (IsListOf claim.now.text.world.now) }
    ensures said { IfOk result (λ s. IsFoundOf claim.now s.judgement) }
    ensures kept { IfOk result (λ s. IfSome s.kept (IsListOf claim.now.text.world.now)) }
{
    let of = list_of(alloc, claim.text.world, kept, claim.f)?;
    let judgement = judge(claim, &of.list);
    Ok(Said {
        judgement,
        kept: Some(of),
    })
}

/// What is said of the section under a query.
fn judgement_of(
    alloc: Global,
    text: &Text<'_>,
    query: Query,
    section: &Section,
    kept: Option<Listed>,
) -> Result<Said, AllocError>
    requires query { IsQueryIn text.now.table.now text.now.world.now query }
    requires section { IsSectionOver text.now.world.now.lexicon text.now.table.now section.now }
    requires kept { IfSome kept (IsListOf text.now.world.now) }
    ensures said { IfOk result (λ s.
        IsJudged (world_of text.now) (query_by text.now.table.now query)
        (section_of text.now.table.now section.now) s.judgement) }
    ensures kept { IfOk result (λ s. IfSome s.kept (IsListOf text.now.world.now)) }
{
    match query.asks {
        Asks::Signature | Asks::Reduced(_) => Ok(Said {
            judgement: Judgement::Skipped,
            kept,
        }),
        Asks::Requirement(r) => {
            if section.heading == b"yes".as_slice() {
                let claim = Claim {
                    text: *text,
                    f: query.f,
                    r,
                    section,
                };
                answer(alloc, &claim, kept)
            } else {
                Ok(Said {
                    judgement: Judgement::Skipped,
                    kept,
                })
            }
        }
    }
}

/// Sections that are laid against the queries of a text: one for each.
#[derive(Drop)]
pub(crate) struct Laid<'t, 's> {
    pub text: Text<'t>,
    pub sections: &'s [Section<'s>],
}

impl<'t, 's> Model for Laid<'t, 's> {
    ghost use Rattle.std.specs.Coded.{codes};
    ghost use Rattle.swreq_world.specs.swreq_param.Codes.{term_code};
    ghost use Rattle.swreq_verify.specs.Claims.{AreLaid, LaidView};

    ghost Value = { LaidView };

    ghost coded = { Prim.hlevel (codes, term_code) };

    ghost view = { λ l. record { text = l.text; sections = l.sections.now } };

    ghost invariant = { λ l. AreLaid (record { text = l.text; sections = l.sections.now }) };
}

/// What is said of the section under the query at this place.
fn judgement_at(
    alloc: Global,
    laid: &Laid<'_, '_>,
    k: usize,
    kept: Option<Listed>,
) -> Result<Said, AllocError>
    requires k { k < length laid.now.text.world.now.queries }
    requires kept { IfSome kept (IsListOf laid.now.text.world.now) }
    ensures said { IfOk result
        (λ s. IsSaidAt (world_of laid.now.text) (sections_of laid.now) k s.judgement) }
    ensures kept { IfOk result (λ s. IfSome s.kept (IsListOf laid.now.text.world.now)) }
{
    let queries = laid.text.world.queries();
    let query = queries[k];
    let section = &laid.sections[k];
    judgement_of(alloc, &laid.text, query, section, kept)
}

/// What is said of the section under each query. Queries on one signature are judged one after the other, so that its list is made once.
pub(crate) fn judgements(alloc: Global, laid: &Laid<'_, '_>) -> Result<Vec<Judgement>, AllocError>
    ensures { IfOk result
        (λ v. AreJudged (world_of laid.now.text) (sections_of laid.now) v.items) }
{
    let queries = laid.text.world.queries();
    let turns = turns_of(alloc, queries)?;
    let mut found = vec![in alloc; Judgement::Skipped; queries.len()]?;
    let mut kept = None;
    for n in 0..turns.len() {
        let turn = turns[n];
        let said = judgement_at(alloc, laid, turn.query, kept)?;
        kept = said.kept;
        found[turn.query] = said.judgement;
    }
    Ok(found)
}
