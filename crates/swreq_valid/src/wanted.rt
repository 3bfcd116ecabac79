//! What rounds start from.
use swreq_complete::Limits;
use swreq_complete::word::Word;
use swreq_symbols::Over;
use swreq_world::derive::Requirement;

/// A requirement that rounds may use, and over what its type parameters are read.
#[derive(Clone, Copy, Debug, PartialEq, Eq)]
pub struct RoundRequirement {
    pub over: Over,
    pub requirement: Requirement,
}

/// What rounds start from beside their base: the equations of every round, the requirements that may join them, in order, and the limits.
#[derive(Drop)]
pub struct RoundStart {
    pub basic: Vec<(Word, Word)>,
    pub all: Vec<RoundRequirement>,
    pub limits: Limits,
}
