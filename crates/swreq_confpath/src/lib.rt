//! Conformance paths: how a derivable conformance comes from a written one, by the fewest requirements.
#![tactic(auto)]

mod aim;
mod given;
pub mod laws;
mod parting;
mod path;
mod places;
mod sought;
mod text;
mod tried;
mod trying;

pub use given::shortest;
pub use path::ConfPath;
pub use text::path_text;
