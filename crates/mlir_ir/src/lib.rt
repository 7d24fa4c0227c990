//! Modules of the `func`, `arith` and `scf` dialects: their types, the labels of their values, and
//! the definitions of their canonical text and of a well-formed function, with its laws.
#![tactic(auto)]

mod args;
mod check;
mod count;
mod counted;
mod fault;
mod keeps;
mod label_laws;
mod laws;
pub mod limits;
mod lookup;
mod loop_labels;
mod module;
mod names;
mod outer;
mod position;
mod rules;
mod scope;
mod scope_kind;
mod shape;
mod signed_text;
mod syntax;
mod terminal;
mod token;
mod type_search;
mod typed;
mod types;
mod uses;
mod walk;
mod width;
mod within;

pub use label_laws::labels_of_functions;
pub use laws::{
    breaks_of_functions, budgets_extend_runs, places_of_functions, traces_grow,
    well_formed_functions,
};
pub use loop_labels::{LoopLabels, loops};
pub use module::Module;
pub use names::{is_digit, is_letter, is_name, is_name_byte};
pub use rules::{Nest, Position, Rules};
pub use scope_kind::ScopeKind;
pub use shape::{Shape, ShapeFault};
pub use signed_text::push_signed;
pub use syntax::{Branch, Form, Syntax, form_number, is_same_form};
pub use terminal::{Terminal, is_same_terminal, terminal_number};
pub use token::{Token, TokenKind};
pub use type_search::type_of;
pub use types::{
    Arg, Body, Flags, ForParts, Func, IrType, Item, Kind, Op, Pack, Region, WhileParts,
};
pub use uses::same_type;
