//! What rules show of the type parameters of a text: its symbols and facts, the words of type parameters, and the walk along their
//! members, which takes no memory.
#![tactic(auto)]

mod behind;
pub mod laws;
mod names;
mod over;
mod reading;
mod text;
mod walk;
mod words;

pub use behind::first_behind;
pub use names::name_at;
pub use over::Over;
pub use reading::Reading;
pub use text::Text;
pub use walk::least_word;
pub use words::equation;
