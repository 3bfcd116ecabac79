//! What a signature implies: the derivation of requirements, its laws, and a checker of derivations
//! written line by line.
#![tactic(auto)]

mod associated;
mod checking;
mod comparing;
mod equalities;
mod inference;
mod instances;
mod known;
pub mod laws;
mod lines;
pub mod plain;
mod premises;
mod required;
mod requirements;
mod shapes;
pub mod worked;
mod written;

pub use checking::check;
pub use known::{Facts, Params};
pub use lines::{BadLine, DerivRule, Line};
pub use requirements::{Requirement, Statement};

/// What the crates above use of `swreq_param`.
pub mod param {
    pub use swreq_param::{AssocId, NameId, ParamId, ParamTable, ProtoId, Step, TermId, TypeParam};
}
