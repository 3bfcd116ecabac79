//! The world of a text: its protocols, names, signatures and queries, with the requirements that are written in it.
#![tactic(auto)]

mod assemble;
mod derived;
mod entries;
mod entry;
mod facts;
pub mod laws;
mod listed;
mod made;
mod making;
mod merging;
mod order;
mod places;
mod protocols;
mod queries;
mod ranks;
mod world;

pub use facts::FunctionFacts;
pub use world::World;

/// What the crates above use of `swreq_lex`.
pub mod lex {
    pub use swreq_lex::laws::{one_reading, one_reading_from};
    pub use swreq_lex::{LexErr, TEXT_LIMIT, Token, tokens_from};
}

/// What the crates above use of `swreq_decl`.
pub mod decl {
    pub use swreq_lexicon::decl::{CallDecl, ParseErr, Skeleton, Span, TypeDecl, parse};
}

/// What the crates above use of `swreq_resolve`.
pub mod resolve {
    pub use swreq_resolve::NameErr;
}

/// What the crates above use of `swreq_param`.
pub mod param {
    pub use swreq_param::{AssocId, NameId, ParamId, ParamTable, ProtoId, Step, TermId, TypeParam};
}

/// What the crates above use of `swreq_derive`.
pub mod derive {
    pub use swreq_lexicon::derive::{Line, Params, Requirement, Statement, check};
}

/// What the crates above use of `swreq_lexicon`.
pub mod lexicon {
    pub use swreq_lexicon::{Lexicon, ProtocolName};
}

/// What the crates above use of `swreq_lowering`.
pub mod lowering {
    pub use swreq_lowering::{Asks, FuncId, Query, Written};
}
