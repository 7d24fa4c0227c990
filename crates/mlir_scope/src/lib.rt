//! The rules on limits, names, types and lengths that the syntax of a text has to keep: the parts of
//! a syntax as the definitions name them, what each of them breaks, the module that a syntax stands
//! for, and its laws.
#![tactic(auto)]

mod blocks;
mod built_funcs;
mod built_loops;
mod built_ops;
mod built_regions;
mod built_types;
mod digits;
mod endings;
mod first;
mod function_faults;
mod kinds;
mod labels;
mod laws;
mod limits;
mod literal_values;
mod literals;
mod loop_headers;
mod loops;
mod names;
mod operands;
mod operation_words;
mod own_uses;
mod phrase;
mod place;
mod region_ends;
mod resolving;
mod results;
mod said;
mod scope;
mod scope_names;
mod signatures;
mod simple;
mod simple_kinds;
mod table;
mod text;
mod text_faults;
mod tokens;
mod unbuilt;
mod use_labels;
mod uses;
mod walk;
mod walked;

pub use blocks::{Operation, Ops, behind_word, next_op};
pub use built_funcs::functions;
pub use digits::capped;
pub use endings::{Ending, condition_ending, ending_in};
pub use first::{First, ScopeFault};
pub use laws::{modules_of_bytes, modules_of_syntaxes, one_reading};
pub use operation_words::{bin_named, cast_named, pred_named};
pub use phrase::{
    Line, Part, Spot, behind, first_spot, first_spot_before, has, head, inside, inside_before,
    lines, next, word,
};
pub use resolving::{ScopeError, resolve};
pub use said::{
    Defined, Packed, Use, ValueType, Written, defined_at, names_in, packs_in, type_in, types_in,
    uses_in,
};
pub use scope::{Known, Scope};
pub use scope_names::{Named, ScopeNames};
pub use text_faults::first_fault;
