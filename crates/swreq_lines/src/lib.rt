//! Lines of derivations as text.
//!
//! `lines_text` writes them, and `read_lines` reads them again. The reader takes from a line what it would say if it were good, tests
//! that this is of the text, and compares what would be printed of it with the line: so a line is read if and only if it is good.
#![tactic(auto)]

mod interning;
pub mod laws;
mod lines;
mod named;
mod numbers;
mod of_text;
mod pieces;
mod premises;
mod printing;
mod reader;
mod reading;
mod rules;
mod statements;
mod types;

pub use lines::{LinesErr, read_lines};
pub use printing::lines_text;
