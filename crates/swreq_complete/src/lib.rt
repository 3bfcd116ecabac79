//! The completion of a list of rules by equations, within limits, and what complete rules are good for.
#![tactic(auto)]

mod complete_rules;
mod completion;
mod indexed;
pub mod laws;
mod limit;
mod part;
mod paths;
mod reading;
mod reduced;
mod reducing;
mod rewriting_system;
mod settling;
mod task;

pub use complete_rules::{CompleteRules, bear, extend};
pub use limit::{Failed, Limits, Which};
pub use rewriting_system::RewritingSystem;

/// What the crates above use of `swreq_word`.
pub mod word {
    pub use swreq_rule::word::{Symbol, Word, WordTable, are_same, compare};
}

/// What the crates above use of `swreq_rule`.
pub mod rule {
    pub use swreq_rule::{Birth, Place, Rule, RuleList, contains, first_redex, oriented, overlaps};
}

/// What the crates above use of `swreq_pair`.
pub mod pair {
    pub use swreq_pair::{Pair, is_pair, pairs_of, pairs_up_to, write_sides};
}

/// What the crates above use of `swreq_path`.
pub mod path {
    pub use swreq_path::{Loop, Path, RewriteStep, compose, invert, path_of};
}

/// What the crates above use of `swreq_watch`.
pub mod watch {
    pub use swreq_watch::{Counter, Event, Fan, Quiet, Recorder, Watch};
}

/// What the crates above use of `swreq_trie`.
pub mod trie {
    pub use swreq_trie::Trie;
}
