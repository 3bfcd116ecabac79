//! The one call of genreq for C, and for all that can call C.
#![tactic(auto)]

mod buffer;
mod call;
mod running;
mod sink;
mod source;
mod words;

pub use call::{Answer, genreq_run};
