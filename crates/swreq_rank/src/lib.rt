//! Items by rank, and lists by place.
#![tactic(auto)]

mod lists;
mod ranked;
mod ranks;

pub use lists::Lists;
pub use ranked::Ranked;
pub use ranks::Ranks;
