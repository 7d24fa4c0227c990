//! The tokens of a text of the `func`, `arith` and `scf` dialects.
#![tactic(auto)]

mod bytes;
mod error;
mod front;
mod gap;
mod laws;
mod lexer;
#[cfg(test)]
mod tests;

pub use error::{LexError, LexFault};
pub use laws::one_lexing;
pub use lexer::tokens;
