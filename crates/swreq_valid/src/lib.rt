//! Rounds that find rules, and the rules of the protocols.
#![tactic(auto)]

mod again;
mod basic;
mod build;
mod by_reduction;
mod checked;
mod completing;
mod course;
mod flags;
mod joining;
mod kept;
pub mod laws;
mod linked;
mod protocols;
mod refused;
mod round;
mod rounds;
mod sides;
mod stopping;
mod turns;
mod underway;
mod usable;
mod wanted;

pub use checked::CheckedText;
pub use kept::Kept;
pub use linked::are_linked;
pub use protocols::Protocols;
pub use refused::Refused;
pub use round::Rounds;
pub use rounds::run_rounds;
pub use sides::first_invalid;
pub use usable::is_usable;
pub use wanted::{RoundRequirement, RoundStart};

/// What the crates above use of `swreq_lex`.
pub mod lex {
    pub use swreq_world::lex::{LexErr, TEXT_LIMIT, one_reading, one_reading_from};
}

/// What the crates above use of `swreq_decl`.
pub mod decl {
    pub use swreq_world::decl::{CallDecl, ParseErr, Span, TypeDecl, parse};
}

/// What the crates above use of `swreq_resolve`.
pub mod resolve {
    pub use swreq_world::resolve::NameErr;
}

/// What the crates above use of `swreq_param`.
pub mod param {
    pub use swreq_world::param::{
        AssocId, NameId, ParamId, ParamTable, ProtoId, Step, TermId, TypeParam,
    };
}

/// What the crates above use of `swreq_derive`.
pub mod derive {
    pub use swreq_world::derive::{Line, Params, Requirement, Statement};
}

/// What the crates above use of `swreq_lexicon`.
pub mod lexicon {
    pub use swreq_world::lexicon::ProtocolName;
}

/// What the crates above use of `swreq_lowering`.
pub mod lowering {
    pub use swreq_world::lowering::{Asks, FuncId, Query, Written};
}

/// What the crates above use of `swreq_world`.
pub mod world {
    pub use swreq_world::World;
    pub use swreq_world::laws::{
        signatures_are_found_by_name, world_is_one, worlds_are_closed, worlds_are_short,
    };
}

/// What the crates above use of `swreq_word`.
pub mod word {
    pub use swreq_complete::word::{Symbol, Word, are_same, compare};
}

/// What the crates above use of `swreq_rule`.
pub mod rule {
    pub use swreq_complete::rule::{Birth, Place, Rule};
}

/// What the crates above use of `swreq_pair`.
pub mod pair {
    pub use swreq_complete::pair::{Pair, pairs_up_to};
}

/// What the crates above use of `swreq_path`.
pub mod path {
    pub use swreq_complete::path::Loop;
}

/// What the crates above use of `swreq_watch`.
pub mod watch {
    pub use swreq_complete::watch::{Quiet, Recorder, Watch};
}

/// What the crates above use of `swreq_complete`.
pub mod complete {
    pub use swreq_complete::{CompleteRules, Failed, Limits, Which, extend};
}

/// What the crates above use of `swreq_symbols`.
pub mod symbols {
    pub use swreq_symbols::{Over, Reading, Text, equation, first_behind, least_word, name_at};
}
