//! Loops that are peeled and unrolled: the child of a function, that it means what its parent does, the
//! operations that stand for the loop, and the calls that make the child.
#![tactic(auto)]

mod calls;
mod counts;
mod full;
mod laws;
mod peeled;
mod plan;
mod source;
mod turns;
mod unrolled;

pub use calls::{begun, found_source, peel, unroll, unroll_full};
pub use full::{full_map, push_full};
pub use laws::{children_are_well_formed, children_mean_the_same};
pub use peeled::push_peeled;
pub use plan::Plan;
pub use source::{Source, source_at};
pub use unrolled::{By, push_unrolled};
