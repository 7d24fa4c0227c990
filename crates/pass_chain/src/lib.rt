//! Passes on the loops of functions, by plans: what the facts of a function say of its loops is what a
//! pass stands on.
#![tactic(auto)]

mod bounds;
mod children;
mod exits;
mod finding;
mod given;
mod given_laws;
mod laws;
mod limits;
mod pass_kind;
mod plans;
mod reading;
mod record;
mod reductions;
mod turning;

pub use bounds::{Bounds, bounds_of};
pub use children::{peeled, unrolled, unrolled_full};
pub use exits::exited;
pub use finding::find_for;
pub use given::{product_exprs, result_exprs};
pub use given_laws::{facts_give_exit_values, facts_give_progressions};
pub use laws::{facts_give_plans, records_and_words};
pub use limits::{is_within_limits, keeps_limits};
pub use pass_kind::{PassKind, PassRefusal, Unmade};
pub use plans::{MAX_FACTOR, MAX_FULL_COUNT, MIN_FACTOR, plan};
pub use record::{Rec, read_rec, rec_word};
pub use reductions::reduced;
