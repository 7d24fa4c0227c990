//! The facts of a function: the expression of each value as a polynomial in symbols and counters of
//! loops, and the trip count of each loop, after LLVM's ScalarEvolution.
#![tactic(auto)]

mod analysis;
mod arguments;
mod bits;
mod carried;
mod counting;
mod counts;
mod defined;
mod entering;
mod fact;
mod facts;
mod given;
mod growth;
mod guards;
mod heads;
mod laws;
mod lookup;
mod merges;
mod next;
mod operands;
mod owns;
mod parts;
mod passing;
mod results;
mod rounds;
mod rules;
mod simple;
mod table;
mod variable;
mod variables;
mod walk;

pub use analysis::{analyse, analyse_items};
pub use fact::{Comparison, Fact};
pub use facts::Facts;
pub use laws::{facts_are_determined, some_items_have_all_facts};
