//! The words of the cells in which expressions are interned, and how many cells one takes.
#![tactic(auto)]

mod count;
mod form;
#[cfg(test)]
mod tests;

pub use count::cells_of;
pub use form::{CellForm, cell_word, read_cell};
