//! The syntax of a text of the `func`, `arith` and `scf` dialects, or the exact place of its fault.
#![tactic(auto)]

mod fault;
mod hope;
mod laws;
mod lines;
mod parser;
mod read;
mod rule;
mod terminals;
#[cfg(test)]
mod tests;
mod tree;

pub use laws::{one_answer, one_syntax};
pub use parser::{ParseFault, parse};
pub use terminals::terminal_of;
