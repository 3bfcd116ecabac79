//! The minimised list of a machine's list.
#![tactic(auto)]

mod candidates;
mod derivable;
mod dropping;
mod evidence;
mod extending;
mod given;
mod minimised;
mod of_params;
mod order;
mod plain;
mod reader;
mod rule_requirement;
mod taking;
mod text_lists;
mod typed;

pub use minimised::minimise;
