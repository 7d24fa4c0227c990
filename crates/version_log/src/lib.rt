//! The version log of the shared table: how far a pass has seen it, and publications.
#![tactic(auto)]

mod log_front;
mod publication;

pub use log_front::front;
pub use publication::publish;
