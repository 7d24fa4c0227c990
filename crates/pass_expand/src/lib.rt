//! Expressions in symbols as operations that compute them.
#![tactic(auto)]

mod expandable;
mod expansion;
mod laws;
mod term;

pub use expandable::is_expandable;
pub use expansion::expand;
pub use laws::expansions_compute;
