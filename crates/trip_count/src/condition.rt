use arith_word::Pred;
use scev_tree::Expr;

/// The test that a loop makes before each iteration: the loop ends where it is false.
#[derive(Drop)]
pub enum Test {
    /// The same in each iteration.
    Number(bool),
    /// A comparison of two expressions of one width. `diff` is left minus right.
    Compare {
        pred: Pred,
        left: Expr,
        right: Expr,
        diff: Expr,
    },
    /// Neither of these.
    Other,
}
