//! Machines: the rules of a list over those of the protocols, and what they answer.
#![tactic(auto)]

mod again;
mod answers;
mod build;
mod having;
mod machine;
mod of_signature;
mod reduced;
mod scratch;

pub use having::Property;
pub use machine::{Machine, core};
pub use scratch::Scratch;

/// What the crates above use of `swreq_decl`.
pub mod decl {
    pub use swreq_valid::decl::{CallDecl, ParseErr, Span, TypeDecl, parse};
}

/// What the crates above use of `swreq_resolve`.
pub mod resolve {
    pub use swreq_valid::resolve::NameErr;
}

/// What the crates above use of `swreq_param`.
pub mod param {
    pub use swreq_valid::param::{
        AssocId, NameId, ParamId, ParamTable, ProtoId, Step, TermId, TypeParam,
    };
}

/// What the crates above use of `swreq_derive`.
pub mod derive {
    pub use swreq_valid::derive::{Line, Params, Requirement, Statement};
}

/// What the crates above use of `swreq_lexicon`.
pub mod lexicon {
    pub use swreq_valid::lexicon::ProtocolName;
}

/// What the crates above use of `swreq_lowering`.
pub mod lowering {
    pub use swreq_valid::lowering::{Asks, FuncId, Query};
}

/// What the crates above use of `swreq_world`.
pub mod world {
    pub use swreq_valid::world::{World, signatures_are_found_by_name};
}

/// What the crates above use of `swreq_word`.
pub mod word {
    pub use swreq_valid::word::{Symbol, Word, are_same, compare};
}

/// What the crates above use of `swreq_rule`.
pub mod rule {
    pub use swreq_valid::rule::{Birth, Place, Rule};
}

/// What the crates above use of `swreq_pair`.
pub mod pair {
    pub use swreq_valid::pair::{Pair, pairs_up_to};
}

/// What the crates above use of `swreq_path`.
pub mod path {
    pub use swreq_valid::path::Loop;
}

/// What the crates above use of `swreq_watch`.
pub mod watch {
    pub use swreq_valid::watch::{Quiet, Recorder, Watch};
}

/// What the crates above use of `swreq_complete`.
pub mod complete {
    pub use swreq_valid::complete::{CompleteRules, Failed, Limits, Which, extend};
}

/// What the crates above use of `swreq_map`.
pub mod map {
    pub use swreq_map::{Endings, PropertyMap, append, vanishes};
}

/// What the crates above use of `swreq_symbols`.
pub mod symbols {
    pub use swreq_valid::symbols::{Over, Text, equation, first_behind, name_at};
}

/// What the crates above use of `swreq_valid`.
pub mod valid {
    pub use swreq_valid::{CheckedText, Protocols, Refused, Rounds, are_linked, is_usable};
}
