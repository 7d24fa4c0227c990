//! The pure core of the shared table: the words of a version log, of memos and of interned cells,
//! the events of up to sixteen sessions on them in any interleaving, what a cell stands for, and
//! the good state that every allowed event keeps.
#![tactic(auto)]

mod event;
mod laws;
mod limits;
mod meaning;
mod path;
mod stepping;
#[cfg(test)]
mod tests;
mod view;
mod words;

pub use event::{Event, Seen};
pub use laws::{
    closing_keeps_good, dealing_keeps_good, equal_parts_are_of_equal_expressions,
    events_can_take_place, events_keep_good, found_ids_stand, full_places_stay, parts_are_low,
    parts_are_unique, runs_are_replayed, start_is_good,
};
pub use limits::{FEWEST_PLACES, MOST_AUTHORS, MOST_PLACES, MOST_PUBLICATIONS};
pub use meaning::MemoMeaning;
pub use path::start;
pub use stepping::{replay, step};
pub use view::{Access, Old, View};
pub use words::{Place, Words};
