//! The texts of answers: values by their names, expressions and trip counts.
#![tactic(auto)]

mod coefficients;
mod definitions;
mod expressions;
mod loop_numbers;
mod naming;
mod numbers;
mod texts;
mod trip_counts;

pub use expressions::push_expr;
pub use naming::ValueNames;
pub use numbers::push_number;
pub use texts::{expr_text, turns_text};
pub use trip_counts::push_turns;
