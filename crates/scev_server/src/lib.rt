//! The server's top call: an input is read from a source, and its answer is written to a sink.
#![tactic(auto)]

mod equal;
mod gate;
mod laws;
mod reply;
mod serving;
mod sessions;
mod state;
mod status;
mod steps;

pub use gate::{Gate, OpenGate};
pub use laws::one_output;
pub use scev_io::{
    Failed, MemSink, MemSource, ReadEnd, Sink, Source, StdSink, StdSource, read_all, write_all,
};
pub use serving::serve;
pub use status::Status;
