//! Words of 1 to 64 bits with the operations of the `arith` dialect, and the small types that all
//! crates share: labels, and lists and texts that contracts see as their contents.
#![tactic(auto)]

mod inverse;
mod label;
mod list;
mod op;
mod operation;
#[cfg(test)]
mod tests;
mod text;
mod width;
mod word;

pub use inverse::{inverse_odd, twos};
pub use label::Label;
pub use list::List;
pub use op::{BinOp, CastOp, Pred, Step};
pub use operation::{apply, cast, compare};
pub use text::Text;
pub use width::Width;
pub use word::{Word, add, mul, neg, signed, sub};
