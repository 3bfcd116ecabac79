//! The names of associated types and of members that a text mentions.

ghost use Rattle.std.specs.{Prelude.{◌≡◌, ◌↔◌, ◌++◌, ◌∷◌, [], ℕ, List, Contains, IfOk, OnOk}, List.{flat_map}};
ghost use Rattle.swreq_names.specs.{Spaces.{word}, Mentioned.{member_of, mentioned}, Walk.{in_step, in_type, in_entity, in_bounds, in_requirement, in_clause, in_member, in_protocol, in_param, in_function, in_struct, in_ask, in_query, walked}};

use crate::words::word;
use std::alloc::{AllocError, Global};
use swreq_decl::{
    Ask, AssocDecl, Entity, FunctionDecl, ParamDecl, ProtocolDecl, QueryDecl, ReqDecl, Skeleton,
    Span, StepDecl, StructDecl, TypeDecl,
};
use swreq_rank::Ranks;
use swreq_text::Seq;

/// A part of a skeleton, which mentions names.
trait Mentions {
    /// The names of a part, in written order.
    ghost names: { List ℕ → Self → List (List ℕ) };

    /// Puts the names of the part at the end of the list.
    fn add_names(
        &self,
        alloc: Global,
        text: &[u8],
        into: &mut Vec<Seq<u8>>,
    ) -> Result<(), AllocError>
        ensures { OnOk result (into.new.items ≡ into.old.items ++ names text.now self.now) };
}

/// Puts the names of these parts at the end of the list, one part after another.
#[tactic(auto, using(crate::proofs::Pieces::pieces_more))]
fn add_all<T: Mentions>(
    alloc: Global,
    text: &[u8],
    parts: &[T],
    into: &mut Vec<Seq<u8>>,
) -> Result<(), AllocError>
    ensures { OnOk result
        (into.new.items ≡ into.old.items ++ flat_map (T.names text.now) parts.now) }
{
    for part in parts {
        part.add_names(alloc, text, into)?;
    }
    Ok(())
}

/// Puts the bytes of a word at the end of the list.
fn add_word(
    alloc: Global,
    text: &[u8],
    span: Span,
    into: &mut Vec<Seq<u8>>,
) -> Result<(), AllocError>
    ensures { OnOk result (into.new.items ≡ into.old.items ++ word text.now span ∷ []) }
{
    let bytes = word(text, span).to_vec(alloc)?;
    into.push(Seq::new(bytes))?;
    Ok(())
}

/// The name of a member.
fn member_of(s: &StepDecl) -> Span
    ensures { result ≡ member_of s.now }
{
    match s {
        StepDecl::Plain { name } => *name,
        StepDecl::Bound { name, .. } => *name,
    }
}

impl Mentions for StepDecl {
    ghost names = { in_step };

    fn add_names(
        &self,
        alloc: Global,
        text: &[u8],
        into: &mut Vec<Seq<u8>>,
    ) -> Result<(), AllocError> {
        add_word(alloc, text, member_of(self), into)
    }
}

impl Mentions for TypeDecl {
    ghost names = { in_type };

    fn add_names(
        &self,
        alloc: Global,
        text: &[u8],
        into: &mut Vec<Seq<u8>>,
    ) -> Result<(), AllocError> {
        add_all(alloc, text, self.steps.items(), into)
    }
}

impl Mentions for Entity {
    ghost names = { in_entity };

    fn add_names(
        &self,
        alloc: Global,
        text: &[u8],
        into: &mut Vec<Seq<u8>>,
    ) -> Result<(), AllocError> {
        add_all(alloc, text, self.args.items(), into)
    }
}

/// Puts the names of a part and then those of another at the end of the list.
fn add_both<T: Mentions, U: Mentions>(
    alloc: Global,
    text: &[u8],
    part: &T,
    other: &U,
    into: &mut Vec<Seq<u8>>,
) -> Result<(), AllocError>
    ensures { OnOk result (into.new.items
        ≡ into.old.items ++ (T.names text.now part.now ++ U.names text.now other.now)) }
{
    part.add_names(alloc, text, into)?;
    other.add_names(alloc, text, into)?;
    Ok(())
}

/// Puts the names of a type and then those of its bounds at the end of the list.
fn add_constraint(
    alloc: Global,
    text: &[u8],
    subject: &TypeDecl,
    bounds: &[Entity],
    into: &mut Vec<Seq<u8>>,
) -> Result<(), AllocError>
    ensures { OnOk result (into.new.items
        ≡ into.old.items ++ (in_type text.now subject.now ++ in_bounds text.now bounds.now)) }
{
    subject.add_names(alloc, text, into)?;
    add_all(alloc, text, bounds, into)?;
    Ok(())
}

impl Mentions for ReqDecl {
    ghost names = { in_requirement };

    fn add_names(
        &self,
        alloc: Global,
        text: &[u8],
        into: &mut Vec<Seq<u8>>,
    ) -> Result<(), AllocError> {
        match self {
            ReqDecl::Bound { subject, bounds } => {
                add_constraint(alloc, text, subject, bounds.items(), into)
            }
            ReqDecl::Same { left, right } => add_both(alloc, text, left, right, into),
        }
    }
}

impl Mentions for AssocDecl {
    ghost names = { in_member };

    fn add_names(
        &self,
        alloc: Global,
        text: &[u8],
        into: &mut Vec<Seq<u8>>,
    ) -> Result<(), AllocError> {
        add_word(alloc, text, self.name, into)?;
        add_all(alloc, text, self.inherits.items(), into)?;
        add_all(alloc, text, self.clause.items(), into)?;
        Ok(())
    }
}

impl Mentions for ProtocolDecl {
    ghost names = { in_protocol };

    fn add_names(
        &self,
        alloc: Global,
        text: &[u8],
        into: &mut Vec<Seq<u8>>,
    ) -> Result<(), AllocError> {
        add_all(alloc, text, self.inherits.items(), into)?;
        add_all(alloc, text, self.clause.items(), into)?;
        add_all(alloc, text, self.members.items(), into)?;
        Ok(())
    }
}

impl Mentions for ParamDecl {
    ghost names = { in_param };

    fn add_names(
        &self,
        alloc: Global,
        text: &[u8],
        into: &mut Vec<Seq<u8>>,
    ) -> Result<(), AllocError> {
        add_all(alloc, text, self.bounds.items(), into)
    }
}

impl Mentions for FunctionDecl {
    ghost names = { in_function };

    fn add_names(
        &self,
        alloc: Global,
        text: &[u8],
        into: &mut Vec<Seq<u8>>,
    ) -> Result<(), AllocError> {
        add_all(alloc, text, self.params.items(), into)?;
        add_all(alloc, text, self.clause.items(), into)?;
        Ok(())
    }
}

impl Mentions for StructDecl {
    ghost names = { in_struct };

    fn add_names(
        &self,
        alloc: Global,
        text: &[u8],
        into: &mut Vec<Seq<u8>>,
    ) -> Result<(), AllocError> {
        add_all(alloc, text, self.params.items(), into)?;
        add_all(alloc, text, self.clause.items(), into)?;
        add_all(alloc, text, self.functions.items(), into)?;
        Ok(())
    }
}

impl Mentions for Ask {
    ghost names = { in_ask };

    fn add_names(
        &self,
        alloc: Global,
        text: &[u8],
        into: &mut Vec<Seq<u8>>,
    ) -> Result<(), AllocError> {
        match self {
            Ask::Signature => Ok(()),
            Ask::Reduced { t } => t.add_names(alloc, text, into),
            Ask::Is { t, bound } => add_both(alloc, text, t, bound, into),
            Ask::Same { left, right } => add_both(alloc, text, left, right, into),
        }
    }
}

impl Mentions for QueryDecl {
    ghost names = { in_query };

    fn add_names(
        &self,
        alloc: Global,
        text: &[u8],
        into: &mut Vec<Seq<u8>>,
    ) -> Result<(), AllocError> {
        self.ask.add_names(alloc, text, into)
    }
}

fn all_mentioned(alloc: Global, text: &[u8], s: &Skeleton) -> Result<Vec<Seq<u8>>, AllocError>
    ensures { IfOk result (λ names. names.items ≡ walked text.now s.now) }
{
    let mut names = Vec::new(alloc);
    add_all(alloc, text, s.protocols.items(), &mut names)?;
    add_all(alloc, text, s.structs.items(), &mut names)?;
    add_all(alloc, text, s.functions.items(), &mut names)?;
    add_all(alloc, text, s.queries.items(), &mut names)?;
    Ok(names)
}

/// The names of associated types and of members in the declarations and queries of a text, by their ranks.
pub fn member_names(alloc: Global, text: &[u8], s: &Skeleton) -> Result<Ranks, AllocError>
    ensures { IfOk result (λ ranks.
        (name : List ℕ) → Contains ranks name ↔ Contains (mentioned text.now s.now) name) }
{
    let names = all_mentioned(alloc, text, s)?;
    Ok(Ranks::of(names))
}
