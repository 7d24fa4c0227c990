//! The algebra of canonical expressions: sums, products, narrower widths, a counter replaced by a
//! number, values. Products of counters go by the products of binomials (Bachmann, Wang and Zima
//! 1994), never place by place.
#![tactic(auto)]

mod align;
mod calls;
mod chains;
mod coefficients;
mod laws;
mod limits;
mod lines;
mod multiplier;
mod onto;
mod places;
mod product;
mod replace;
mod sum;
mod valued;

pub use calls::{add, at, cut, mul, neg, sub, truncate, value};
pub use laws::{
    leaves_are_within_limits, lines_have_values, results_are_unique, values_of_multiples,
    values_of_products, values_of_replacements, values_of_sums,
};
pub use limits::is_within;
pub use lines::{Line, split};

#[cfg(test)]
mod tests;
