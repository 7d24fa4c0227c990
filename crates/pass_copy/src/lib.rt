//! Copies of operations with other labels and fresh names, functions in which other operations stand
//! for a loop, and what it means that a function keeps the meaning of another.
#![tactic(auto)]

mod building;
mod copies;
mod given;
mod laws;
mod moving;
mod names;
mod naming;
mod places;
mod renaming;
mod replacing;
mod room;
mod same;
mod scope_search;
mod taken;

pub use building::Out;
pub use copies::{copy_arg, copy_args, copy_op, copy_ops, copy_packs, copy_region, copy_types};
pub use laws::{fresh_names_are_free, functions_mean_themselves};
pub use moving::{labels_from, moved, moved_map, push_links};
pub use names::Names;
pub use places::{advance, found_for, found_loop, is_loop, labels_in, pass_kind};
pub use renaming::{Renaming, Span};
pub use replacing::replace;
pub use room::item_labels;
pub use same::{region_of, same_arg, same_args, same_labels, same_packs};
pub use scope_search::scope_of;
