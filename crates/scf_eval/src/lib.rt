//! Runs of functions: the numbers that a function returns and the calls that it makes, on arguments,
//! on the replies of its calls and on a budget.
#![tactic(auto)]

mod function;
mod input;
mod labels;
mod laws;
mod machine;
mod memory;
mod outcome;
mod parts;
mod simple;
#[cfg(test)]
mod tests;
mod walk;

pub use function::run;
pub use laws::scope_decides;
pub use outcome::{Event, Outcome, Run};
