//! Derivations under way: what the lines state, how lines are added by the rules of derivation, and which lines the last one needs.
//!
//! A call fails only if memory runs out. Whatever it answers, what was stated is still stated, and the table begins with the old one.
#![tactic(auto)]

mod adding;
mod derivation;
mod equalities;
mod keeping;
mod marking;
mod requirements;
mod stated;
mod statements;
mod validity;

pub use adding::is_stated;
pub use derivation::Derivation;
pub use equalities::{add_assoc_bind, add_same_bound, add_same_name, add_symm, add_trans, are_one};
pub use keeping::needed;
pub use requirements::{Origin, add_requirement};
pub use stated::Stated;
pub use statements::{
    Bound, bound_requirement, bound_statement, conf_statement, same_statement, valid_statement,
};
pub use swreq_derive::Requirement;
pub use validity::{add_generic, add_member, add_reflex};
