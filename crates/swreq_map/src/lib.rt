//! The properties of irreducible words: the protocols whose symbols vanish after them, and the layout.
#![tactic(auto)]

mod appending;
mod endings;
mod followers;
mod map;
mod vanishing;

pub use appending::append;
pub use endings::Endings;
pub use map::{Properties, PropertyMap};
pub use vanishing::vanishes;
