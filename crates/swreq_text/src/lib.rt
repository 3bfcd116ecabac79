//! The outside of the program, and printed texts.
//!
//! Where bytes come from and where they go, each with a count of its faults; lists of bytes that grow; and the lines of a text, and
//! an input in two parts with a line `%%` between them. A function named
//! `append_..` leaves the list unchanged if memory runs out. One named `put_..` may leave a part of its text at the list's end: a
//! caller that promises more lets it write into a fresh list, and appends that.
#![tactic(auto)]

mod append;
mod division;
mod joined;
pub mod laws;
mod line;
mod memory;
mod seq;
mod standard;
mod streams;
mod whole;

pub use append::{append_bytes, append_number};
pub use division::{TwoParts, parts};
pub use joined::{Print, put_joined};
pub use line::{FirstLine, first_line};
pub use memory::{CountSink, MemSink, MemSource, SureSource};
pub use seq::Seq;
pub use standard::{StdSink, StdSource};
pub use streams::{IoFailed, Sink, Source};
pub use whole::{ReadErr, WriteFault, read_all, write_all};
