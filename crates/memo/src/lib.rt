//! Memos in the shared table: a node is kept under the key of a version and a label, found again,
//! and forgotten.
#![tactic(auto)]

mod forget;
mod found;
mod kept;
mod key;
mod met;

pub use forget::forget_range;
pub use found::{Found, find};
pub use kept::{KeptAs, keep};
pub use key::key_word;
pub use met::Met;
