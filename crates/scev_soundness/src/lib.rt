//! The laws of facts over runs: each answer holds at every iteration of every run.
#![tactic(auto)]

mod laws;

pub use laws::{facts_hold, iterations_stay_below_counts, rules_keep_values};
