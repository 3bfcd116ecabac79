//! What is written: the type parameters that written types stand for, the requirements of protocols and signatures, their
//! generic parameters, and the queries.
#![tactic(auto)]

mod context;
mod ids;
pub mod laws;
mod lookups;
mod params;
mod protocols;
mod queries;
mod requirements;
mod signatures;
mod spelling;
mod words;

pub use context::Context;
pub use ids::{Asks, FuncId, Query, Written};
pub use lookups::words_of;
pub use params::{own_depth, params_of};
pub use protocols::of_protocol;
pub use queries::{asked_of, asked_signature};
pub use signatures::{of_function, of_nested, of_struct};
pub use spelling::spell;
pub use words::Words;
