//! What is printed of a signature: the lines that answer its queries (`yes`, `no`, `invalid`, and reduced types), its minimised list, and its
//! reduced rewriting system.
#![tactic(auto)]

mod answers;
pub mod laws;
mod minimised;
mod names;
mod reduced;
mod system;
mod verdict;

pub use answers::{answer, room_for};
pub use minimised::minimised_line;
pub use names::full_name;
pub use system::system_text;
pub use verdict::{Verdict, judge};
