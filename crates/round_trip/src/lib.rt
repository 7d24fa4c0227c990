//! The canonical text of a module reads as the module again.
#![tactic(auto)]

mod laws;

pub use laws::{
    canonical_functions, canonical_phrase, canonical_readings, canonical_syntax,
    canonical_texts_read, canonical_tokens, canonical_tree, some_module,
};
