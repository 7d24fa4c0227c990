//! The canonical text of a module: one line an operation, each region two blanks deeper than the
//! line that opens it.
#![tactic(auto)]

mod constant;
mod depth;
mod filling;
mod functions;
mod heads;
mod lists;
mod naming;
mod operations;
mod simple;
#[cfg(test)]
mod tests;
mod uses;
mod words;

pub use functions::{print, print_beside, print_func};
pub use naming::{Names, Slot};
