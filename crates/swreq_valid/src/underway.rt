//! The round under way, and what it comes to.

use crate::round::{Round, Rounds};
use swreq_complete::rule::Rule;
use swreq_complete::{RewritingSystem, Which};
use swreq_text::Seq;

/// A limit that a round passed, with its trace.
#[derive(Drop)]
pub(crate) struct Passed {
    pub which: Which,
    pub trace: Seq<Rule>,
}

/// The round under way: the requirements that it uses, by a flag for each; where it is begun anew, the limit that was passed first; and
/// the rounds before it.
#[derive(Drop)]
pub(crate) struct Underway<'b> {
    pub used: Vec<bool>,
    pub first: Option<Passed>,
    pub before: Vec<Round<'b>>,
}

/// The rules of a short round, and the flags of the round that uses what joins by it.
#[derive(Drop)]
pub(crate) struct Joined<'b> {
    pub rules: RewritingSystem<'b>,
    pub more: Vec<bool>,
}

/// What a round comes to: the next one, or all rounds, of which it was the last.
#[derive(Drop)]
pub(crate) enum Turn<'b> {
    Goes(Underway<'b>),
    Lasts(Rounds<'b>),
}
