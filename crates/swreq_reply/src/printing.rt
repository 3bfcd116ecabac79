//! What a command prints of a checked text, by the pieces that were made of it.
ghost use Rattle.std.specs.{Prelude.{◌≡◌, ◌<◌, ◌++◌, true, decimal, get_or, length, List, IfOk, OnOk}, Bool.{Decides}, List.{concat}};
ghost use Rattle.swreq_query.specs.{Signatures.{IsNamedLine}, Systems.{IsSystemText}, Asked.{answer_of}};
ghost use Rattle.swreq_print.specs.Names.{Text as Bytes};
ghost use Rattle.swreq_valid.specs.{swreq_symbols.Texts.{world_of}, swreq_world.Worlds.{no_signature}};
ghost use Rattle.swreq_check.specs.{declared.content.Backing.TheVariants.{Nothing}, declared.content.Content.TheVariants.{Answers}, declared.content.Shown.TheVariants.{Counts}, Contents.{AreAnswers, AreSignatures, AreSystems, backing_of}, Lines.{AreLinesIn, Counted}, QueryLines.{HasAnswer, IsLineOf}, Made.{text_at}};
ghost use Rattle.swreq_reply.specs.{Inputs.{Parts}, Outputs.{AnswersLast, AreCounts, IsOutput, sizes_text, verdicts_text}, Pieces.{query_at}};

use std::alloc::{AllocError, Global};
use std::marker::Model;
use swreq_check::{Content, Piece, Shown, line_at, list_asked, text_at, verdict_at};
use swreq_print::lowering::FuncId;
use swreq_query::{Verdict, full_name};
use swreq_text::{Seq, append_bytes, append_number};
use swreq_valid::symbols::Text;

/// What was made of a text: the pieces of its machines, each at its place, and the lines of the minimised lists that are wanted.
#[derive(Drop)]
pub(crate) struct MadePieces<'a> {
    pub alloc: Global,
    pub text: &'a Text<'a>,
    pub content: Content,
    pub pieces: &'a [Option<Piece>],
    /// The line of the minimised list of each signature, by place, or None where it is not wanted.
    pub lists: &'a [Option<Seq<u8>>],
}

impl<'a> Model for MadePieces<'a> {
    ghost use Rattle.std.specs.Coded.{codes};
    ghost use Rattle.swreq_print.specs.swreq_param.Codes.{term_code};
    ghost use Rattle.swreq_reply.specs.Pieces.{IsWhole, MadeView, view_of};

    ghost Value = { MadeView };

    ghost coded = { Prim.hlevel (codes, term_code) };

    ghost view = { λ m. view_of m.text.now m.content m.pieces.now m.lists.now };

    ghost invariant = { λ m. IsWhole (view_of m.text.now m.content m.pieces.now m.lists.now) };
}

/// What answers the query at this place: a piece of a machine, or the line of a minimised list.
fn answer_at<'a>(m: &MadePieces<'a>, k: usize) -> &'a [u8]
    requires k { k < length m.now.text.world.now.queries }
    requires answers { AreAnswers m.now.content }
    ensures { IsLineOf (world_of m.now.text) true (backing_of m.now.content)
        (query_at m.now k) result.now }
{
    match list_asked(&m.text.world.queries()[k]) {
        Some(f) => line_at(m.lists, f.place as usize),
        None => text_at(m.pieces, k),
    }
}

/// The answers to all queries, one after the other.
fn all_answers(m: &MadePieces<'_>) -> Result<Vec<u8>, AllocError>
    requires { AreAnswers m.now.content }
    ensures { IfOk result (λ v. AreLinesIn (IsLineOf (world_of m.now.text) true
        (backing_of m.now.content)) (world_of m.now.text).queries v.items) }
{
    let mut out = Vec::new(m.alloc);
    for k in 0..m.text.world.queries().len() {
        append_bytes(&mut out, answer_at(m, k))?;
    }
    Ok(out)
}

/// Whether the query at this place has this verdict.
fn has_verdict(m: &MadePieces<'_>, k: usize, verdict: Verdict) -> bool
    requires k { k < length m.now.text.world.now.queries }
    requires answers { AreAnswers m.now.content }
    ensures { Decides result
        (HasAnswer (world_of m.now.text) true (answer_of verdict) (query_at m.now k)) }
{
    verdict_at(m.pieces, k) == Some(verdict)
}

/// How many queries have this verdict.
fn count_of(m: &MadePieces<'_>, verdict: Verdict) -> usize
    requires { AreAnswers m.now.content }
    ensures { Counted (HasAnswer (world_of m.now.text) true (answer_of verdict))
        (world_of m.now.text).queries result }
{
    let mut count = 0;
    for k in 0..m.text.world.queries().len() {
        if has_verdict(m, k, verdict) {
            count += 1;
        }
    }
    count
}

/// The answer to the last query, and nothing where there is none.
fn last_answer<'a>(m: &MadePieces<'a>) -> &'a [u8]
    requires answers { AreAnswers m.now.content }
    requires plain { backing_of m.now.content ≡ Nothing }
    ensures { AnswersLast (world_of m.now.text) true (world_of m.now.text).queries result.now }
{
    let count = m.text.world.queries().len();
    if count == 0 {
        return &[];
    }
    answer_at(m, count - 1)
}

/// Appends a word and a number.
fn put_count(word: &str, count: usize, out: &mut Vec<u8>) -> Result<(), AllocError>
    ensures { OnOk result (out.new.items ≡ out.old.items ++ (word.now ++ decimal count)) }
{
    append_bytes(out, word.as_bytes())?;
    append_number(out, count as u64)
}

/// Appends how much the generated text of n protocols has of what.
fn put_sizes(n: u32, out: &mut Vec<u8>) -> Result<(), AllocError>
    ensures { OnOk result (out.new.items ≡ out.old.items ++ sizes_text n) }
{
    let protocols = n as usize;
    put_count("protocols ", protocols, out)?;
    put_count("\nfunctions 1\nqueries ", 4 * protocols + 1, out)?;
    append_bytes(out, b"\n")
}

/// Appends these counts of verdicts.
fn put_verdicts(
    yes_count: usize,
    no_count: usize,
    invalid_count: usize,
    out: &mut Vec<u8>,
) -> Result<(), AllocError>
    ensures { OnOk result
        (out.new.items ≡ out.old.items ++ verdicts_text yes_count no_count invalid_count) }
{
    put_count("yes ", yes_count, out)?;
    put_count("\nno ", no_count, out)?;
    put_count("\ninvalid ", invalid_count, out)?;
    append_bytes(out, b"\n")
}

/// The counts of the verdicts on the queries of the generated text of n protocols, and the last answer.
fn counts(m: &MadePieces<'_>, n: u32) -> Result<Vec<u8>, AllocError>
    requires { m.now.content ≡ Answers (Counts n) }
    ensures { IfOk result (λ v. (lines : List Bytes)
        × AreCounts (world_of m.now.text) true n lines × (v.items ≡ concat lines)) }
{
    let mut out = Vec::new(m.alloc);
    let yes_count = count_of(m, Verdict::Yes);
    let no_count = count_of(m, Verdict::No);
    let invalid_count = count_of(m, Verdict::Invalid);
    put_sizes(n, &mut out)?;
    put_verdicts(yes_count, no_count, invalid_count, &mut out)?;
    append_bytes(&mut out, last_answer(m))?;
    Ok(out)
}

/// The reduced rewriting systems of all signatures, in written order.
fn all_systems(m: &MadePieces<'_>) -> Result<Vec<u8>, AllocError>
    requires { AreSystems m.now.content }
    ensures { IfOk result (λ v. AreLinesIn (IsSystemText (world_of m.now.text))
        (world_of m.now.text).signatures v.items) }
{
    let mut out = Vec::new(m.alloc);
    for k in 0..m.pieces.len() {
        append_bytes(&mut out, text_at(m.pieces, k))?;
    }
    Ok(out)
}

/// Appends the line of a signature: its name, and its minimised list.
fn put_named(m: &MadePieces<'_>, f: FuncId, out: &mut Vec<u8>) -> Result<(), AllocError>
    requires signatures { AreSignatures m.now.content }
    requires f { f.place < length m.now.text.world.now.signatures }
    ensures { OnOk result ((line : Bytes) × IsNamedLine (world_of m.now.text)
        (get_or (world_of m.now.text).signatures f.place no_signature) line
        × (out.new.items ≡ out.old.items ++ line)) }
{
    full_name(m.text, f, out)?;
    append_bytes(out, b": ")?;
    append_bytes(out, line_at(m.lists, f.place as usize))
}

/// The lines of all signatures, in written order.
fn all_signatures(m: &MadePieces<'_>) -> Result<Vec<u8>, AllocError>
    requires { AreSignatures m.now.content }
    ensures { IfOk result (λ v. AreLinesIn (IsNamedLine (world_of m.now.text))
        (world_of m.now.text).signatures v.items) }
{
    let mut out = Vec::new(m.alloc);
    for k in 0..m.text.world.functions() {
        put_named(m, FuncId { place: k }, &mut out)?;
    }
    Ok(out)
}

/// The answers to the queries, as they are shown.
fn shown_answers(m: &MadePieces<'_>, shown: Shown) -> Result<Vec<u8>, AllocError>
    requires { m.now.content ≡ Answers shown }
    ensures { IfOk result
        (λ v. (parts : Parts) → IsOutput (world_of m.now.text) true (Answers shown) parts v.items) }
{
    match shown {
        Shown::Each { .. } => all_answers(m),
        Shown::Counts { protocols } => counts(m, protocols),
    }
}

/// What a command prints that prints pieces of machines or minimised lists.
pub(crate) fn output(m: &MadePieces<'_>) -> Result<Vec<u8>, AllocError>
    ensures { IfOk result
        (λ v. (parts : Parts) → IsOutput (world_of m.now.text) true m.now.content parts v.items) }
{
    match m.content {
        Content::Answers { shown } => shown_answers(m, shown),
        Content::Signatures => all_signatures(m),
        Content::Systems => all_systems(m),
        Content::Families | Content::Judgements | Content::Calls => unreachable!(),
    }
}
