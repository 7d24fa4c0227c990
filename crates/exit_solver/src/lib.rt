//! The turn at which a test of a recurrence fails first: the numbers for which a predicate is false
//! form an arc of the residues modulo 2 to the width, and a linear recurrence hits an arc at a turn
//! that is found by remainders, without a search over the turns.
#![tactic(auto)]

mod arc;
mod exit;
mod hit;
#[cfg(test)]
mod tests;

pub use arc::{Arc, exit_arc};
pub use exit::least_exit;
pub use hit::{Hit, first_hit};
