//! What rules say of type parameters, unfolded along the births of the rules: lines of a derivation state that the two sides of a rule are
//! read alike after a type parameter.
//!
//! A call fails only if memory runs out. Whatever it answers, what was stated is still stated, and the table begins with the old one.
#![tactic(auto)]

mod giving;
mod history;
mod members;
mod pairs;
mod stepping;
mod types;
mod unfolding;

pub use history::{
    Equation, History, OwnedRequirement, Reason, RulePlace, System, all_rules, system_at,
    system_count,
};
pub use members::conform_by_member;
pub use types::ReadingPlace;
pub use unfolding::{declare, lines_of_rule, link, read_type};
