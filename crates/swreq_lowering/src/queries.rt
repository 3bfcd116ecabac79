// The queries of a text.
ghost use Rattle.std.specs.Prelude.{◌≡◌, IfOk};
ghost use Rattle.swreq_param.specs.Tables.{Extends};
ghost use Rattle.swreq_lowering.specs.{Adding.{AddsAsked}, Queries.{asked_of, asked_signature, signature_in_query}, Words.{words_by}};

use crate::context::Context;
use crate::ids::Asks;
use crate::requirements::bound_of;
use crate::spelling::spell;
use crate::words::Words;
use std::alloc::AllocError;
use swreq_lexicon::decl::{Ask, QueryDecl, Span};
use swreq_lexicon::derive::Requirement;
use swreq_lexicon::names::{Signature, word};
use swreq_param::ParamTable;

/// The signature that a query asks, or the first function at the top where there is none.
pub fn asked_signature(words: &Words<'_>, query: &QueryDecl) -> Signature
    ensures { result
        ≡ asked_signature
        (signature_in_query (words_by words.now) query.now.outer query.now.function) }
{
    match signature_in_query(words, query.outer, query.function) {
        Some(signature) => signature,
        None => Signature::Function(0),
    }
}

/// The struct or function at the top of this name, or the function of the struct `outer`.
fn signature_in_query(words: &Words<'_>, outer: Option<Span>, function: Span) -> Option<Signature>
    ensures { result ≡ signature_in_query (words_by words.now) outer function }
{
    let names = words.lexicon.resolved();
    let name = word(words.text, function);
    match outer {
        Some(outer) => names.find_nested(word(words.text, outer), name),
        None => names.find_signature(name),
    }
}

/// What `ask` asks of the signature.
#[tactic(auto, using(swreq_param::proofs::Growing::onward))]
pub fn asked_of(
    table: &mut ParamTable,
    words: &Words<'_>,
    signature: Signature,
    ask: &Ask,
) -> Result<Asks, AllocError>
    ensures asked { IfOk result
        (AddsAsked table.old table.new (asked_of (words_by words.now) signature ask.now)) }
    ensures extends { Extends table.old table.new }
{
    let context = Context::Signature(signature);
    match ask {
        Ask::Signature => Ok(Asks::Signature),
        Ask::Reduced { t } => {
            let t = spell(table, words, context, t)?;
            Ok(Asks::Reduced(t))
        }
        Ask::Is { t, bound } => {
            let t = spell(table, words, context, t)?;
            Ok(Asks::Requirement(bound_of(words, t, bound)))
        }
        Ask::Same { left, right } => {
            let left = spell(table, words, context, left)?;
            let right = spell(table, words, context, right)?;
            Ok(Asks::Requirement(Requirement::Same { left, right }))
        }
    }
}
