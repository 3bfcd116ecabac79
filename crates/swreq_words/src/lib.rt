//! The words of the command line, read by `clap`.
#![tactic(auto)]

mod command;
mod form;
pub mod laws;
mod limits;
mod meaning;
mod numbers;
mod parse;
mod reading;
mod seen;

pub use command::{Command, CommandLine, Input};
pub use reading::{UsageErr, read};
