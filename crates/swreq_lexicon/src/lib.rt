//! The protocols, names, associated types and member symbols of a text, by rank.
#![tactic(auto)]

mod associated;
mod heirs;
pub mod laws;
mod lexicon;
mod members;
mod ordered;
mod pair;
mod protocols;
mod symbols;

pub use lexicon::Lexicon;
pub use pair::ProtocolName;

/// What the crates above use of `swreq_rank`.
pub mod rank {
    pub use swreq_rank::Lists;
}

/// What the crates above use of `swreq_decl`.
pub mod decl {
    pub use swreq_decl::laws::{
        one_list_of_calls, one_skeleton, one_verdict, one_verdict_on_calls,
    };
    pub use swreq_decl::{
        Ask, AssocDecl, CallDecl, Entity, FunctionDecl, Kind, ParamDecl, ParseErr, ProtocolDecl,
        QueryDecl, ReqDecl, Skeleton, Span, StepDecl, StructDecl, TypeDecl, parse, parse_calls,
    };
}

/// What the crates above use of `swreq_names`.
pub mod names {
    pub use swreq_names::laws::{names_are_words, words_have_word_bytes};
    pub use swreq_names::{Declared, Names, Param, Signature, word};
}

/// What the crates above use of `swreq_param`.
pub mod param {
    pub use swreq_derive::param::{
        AssocId, NameId, ParamId, ParamTable, ProtoId, Step, TermId, TypeParam,
    };
}

/// What the crates above use of `swreq_derive`.
pub mod derive {
    pub use swreq_derive::{DerivRule, Facts, Line, Params, Requirement, Statement, check};
}
