//! The input of the program: the bytes of a module and then of scripts of sessions, or the first
//! fault of bytes that are none.
#![tactic(auto)]

mod fault;
mod fault_text;
mod input;
mod laws;
mod module_text;

pub use fault::{Fault, FaultKind, Refused};
pub use fault_text::push_fault;
pub use input::{Input, read};
pub use laws::one_input;
