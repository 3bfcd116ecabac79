//! The texts that are printed, as bytes: type parameters, requirements, signatures, rules and traces.
//!
//! Names come from the lexicon of the text. Each public call appends its text to `out`, and leaves `out` unchanged if memory runs out.
#![tactic(auto)]

pub mod laws;
mod naming;
mod refusal;
mod rules;
mod signatures;
mod types;

pub use refusal::{OUT_OF_MEMORY, READ_FAULT, RefusalKind, TOO_LARGE, USAGE, refusal_text};
pub use rules::{rule_text, trace_text};
pub use signatures::{requirement_text, self_text, signature_text};
pub use types::{steps_text, type_text};

/// What the crates above use of `swreq_rank`.
pub mod rank {
    pub use swreq_lexicon::rank::Lists;
}

/// What the crates above use of `swreq_decl`.
pub mod decl {
    pub use swreq_lexicon::decl::{
        CallDecl, ParseErr, Skeleton, Span, StepDecl, TypeDecl, one_list_of_calls, one_skeleton,
        one_verdict, one_verdict_on_calls, parse, parse_calls,
    };
}

/// What the crates above use of `swreq_names`.
pub mod names {
    pub use swreq_lexicon::names::{
        Declared, Signature, names_are_words, word, words_have_word_bytes,
    };
}

/// What the crates above use of `swreq_param`.
pub mod param {
    pub use swreq_lexicon::param::{
        AssocId, NameId, ParamId, ParamTable, ProtoId, Step, TermId, TypeParam,
    };
}

/// What the crates above use of `swreq_derive`.
pub mod derive {
    pub use swreq_lexicon::derive::{DerivRule, Line, Params, Requirement, Statement};
}

/// What the crates above use of `swreq_lexicon`.
pub mod lexicon {
    pub use swreq_lexicon::Lexicon;
}

/// What the crates above use of `swreq_lowering`.
pub mod lowering {
    pub use swreq_lowering::laws::lists_are_short;
    pub use swreq_lowering::{Asks, FuncId, Query};
}
