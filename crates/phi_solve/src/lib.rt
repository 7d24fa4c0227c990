//! The arguments of loops that grow by a known step: an argument that yields itself plus p is the
//! chain that begins with the initial value and sums p over the turns (Bachmann, Wang and Zima 1994).
#![tactic(auto)]

mod laws;
mod solve;

pub use laws::{
    chains_begin, chains_grow, chains_of_fixed_steps, steps_and_chains_are_unique, yields_are_sums,
};
pub use solve::{Solved, add_recurrence, is_below, is_low, recur};

#[cfg(test)]
mod tests;
