//! The trip count of a loop: the least iteration at which the loop's test is false, from the add
//! recurrences of the two sides that the test compares.
#![tactic(auto)]

mod answer;
mod condition;
mod exit;
mod guard;
mod laws;
mod predicate;
mod recurrence;
mod solve;

pub use answer::{Turns, Why};
pub use condition::Test;
pub use guard::guard_is;
pub use laws::{
    guards_hold_with_their_tests, symbolic_counts_are_invariant, trip_counts_are_least_exits,
};
pub use predicate::swapped;
pub use solve::turns;

#[cfg(test)]
mod tests;
