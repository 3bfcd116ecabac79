//! Requirement signatures: which requirements of the protocols of a text are kept, so that the same is derivable from each protocol and
//! none of them can be left out.
#![tactic(auto)]

mod deciding;
mod derived;
mod family;
mod flags;
mod going;
mod kept;
pub mod laws;
mod named;
mod outlines;
mod places;
mod reaching;
mod saying;
mod selection;
mod setting;
mod texts;

pub use family::Family;
pub use kept::kept_family;
pub use texts::family_text;
