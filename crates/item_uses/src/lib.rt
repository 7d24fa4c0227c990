//! Which items of a function use values of which others: the items that one affects, and those that
//! it uses.
#![tactic(auto)]

mod laws;
mod marks;
mod operands;
mod queries;

pub use laws::{affected_items_depend, used_items_are_depended_on, uses_go_back};
pub use operands::item_operands;
pub use queries::{affected, uses};
