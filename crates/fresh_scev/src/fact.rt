use arith_word::{Label, Pred};
use scev_tree::Expr;
use trip_count::Turns;

/// A comparison of two values, by their labels.
#[derive(Clone, Copy, Debug)]
pub struct Comparison {
    pub pred: Pred,
    pub left: Label,
    pub right: Label,
}

/// What is known of a label: the expression of a value, with the comparison whose result it is, or
/// the trip count of a loop.
#[derive(Drop)]
pub enum Fact {
    Value(Expr, Option<Comparison>),
    Loop(Turns),
}
