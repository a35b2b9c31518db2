//! Where the program's input comes from and where its output goes: sources and sinks, over std's streams and in memory, and what
//! reads a whole input and writes a whole output.
#![tactic(auto)]

mod failed;
mod input;
mod memory;
mod output;
mod sink;
mod source;
#[cfg(test)]
mod tests;

pub use failed::Failed;
pub use input::{InputFault, LIMIT, read_all};
pub use memory::{MemSink, MemSource};
pub use output::send;
pub use sink::{Sink, StdSink};
pub use source::{Source, StdSource};
