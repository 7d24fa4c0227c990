//! The table that sessions share: one table of atomic words that holds the version log, the memos
//! and the interned cells. Its state is good between any two atomic steps of any threads.
#![tactic(auto)]

mod answers;
mod cells;
mod closing;
mod loads;
mod opening;
mod pass;
mod play;
mod puts;
mod rule;
mod shared;
mod sizes;
mod splits;

pub use answers::{CellPut, Kept, Node, Put};
pub use opening::open;
pub use pass::Pass;
pub use play::{ClearId, LoadCell, LoadId, LoadKey, LoadLog, PutCell, PutId, PutKey, PutLog};
pub use rule::{About, TableOf};
pub use shared::Shared;
pub use sizes::{SizedView, Sizes};
