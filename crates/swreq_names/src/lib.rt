//! The names of a text: what each refers to, which protocol inherits which, and how names are spelled.
#![tactic(auto)]

mod declared;
mod declarers;
mod directory;
mod inheritance;
mod kinds;
pub mod laws;
mod lookups;
mod mentioned;
mod signature;
mod words;

pub use declared::Declared;
pub use directory::{Declaration, Directory};
pub use lookups::{Names, has_member};
pub use mentioned::member_names;
pub use signature::{Param, Signature};
pub use words::word;
