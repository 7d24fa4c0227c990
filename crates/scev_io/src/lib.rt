//! Input and output by bytes: the traits [`Source`] and [`Sink`], their implementations in memory
//! and over the standard streams, and calls that read or write all bytes.
//!
//! A source and a sink count their faults. A contract names the bytes of a source or sink that tells
//! them, as those in memory do; of the standard streams it names the count of faults alone.
#![tactic(auto)]

mod memory;
mod standard;
mod stream;
#[cfg(test)]
mod tests;
mod whole;

pub use memory::{MemSink, MemSource};
pub use standard::{StdSink, StdSource};
pub use stream::{Failed, Sink, Source};
pub use whole::{ReadEnd, read_all, write_all};
