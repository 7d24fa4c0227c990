use arith_word::Pred;
use scev_tree::Expr;

/// The trip count of a loop: how many iterations it makes.
#[derive(Drop)]
pub enum Turns {
    /// So many.
    Count(u64),
    /// The test never fails.
    Never,
    /// The unsigned value of the expression.
    Exactly(Expr),
    /// The unsigned value of `e` where `pred(a, c)` holds, else 0.
    Guarded {
        pred: Pred,
        a: Expr,
        c: Expr,
        e: Expr,
    },
    /// Not known.
    Unknown(Why),
}

/// Why a trip count isn't known. The first that applies.
#[derive(Clone, Copy, Debug, PartialEq, Eq)]
pub enum Why {
    /// The test isn't a comparison.
    NotACompare,
    /// A side has a variable above the loop's counter, or isn't linear in the counter.
    Moving,
    /// The sides are linear, but not in one of the forms that are solved.
    Symbolic,
}
