// Sources and sinks in memory.
mod sink;
mod source;

pub use sink::{CountSink, MemSink};
pub use source::{MemSource, SureSource};
