//! The rules of lists of requirements, which grow with the lists, and what is derivable from a list by its rules.
#![tactic(auto)]

mod derivable;
mod list_rules;
mod setting;
mod settling;

pub use derivable::is_derivable_by;
pub use list_rules::ListRules;
pub use setting::Setting;
