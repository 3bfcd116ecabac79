//! The ids of names, protocols and associated types, and type parameters over them, each once in a
//! table.
#![tactic(auto)]

mod ids;
pub mod laws;
mod owned;
mod table;
pub mod worked;

pub use ids::{AssocId, NameId, ParamId, ProtoId, Step, TermId};
pub use owned::TypeParam;
pub use table::ParamTable;
