//! Children of functions by what values are: results of loops computed behind them, and products in
//! loops that become additions.
#![tactic(auto)]

mod calls;
mod chosen;
mod exit_laws;
mod exits;
mod growth;
mod made;
mod progressions;
mod reduction_laws;
mod reductions;

pub use calls::{exit_values, reduce};
pub use chosen::Chosen;
pub use exit_laws::{exit_values_are_well_formed, exit_values_mean_the_same};
pub use growth::{Growth, Places};
pub use made::Made;
pub use reduction_laws::{reductions_are_well_formed, reductions_mean_the_same};
