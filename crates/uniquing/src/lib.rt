//! Hash-consing of expressions in the shared table: each part of an expression has one cell, so
//! that equal expressions have equal nodes.
#![tactic(auto)]

mod accounting;
mod equality;
mod interning;
mod reading;

pub use accounting::cells_are_asked_for;
pub use equality::same_node;
pub use interning::{CellsFull, intern};
pub use reading::read;
