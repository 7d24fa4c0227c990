use crate::word::Word;

/// An operation of the MLIR `arith` dialect on two words of one width.
#[derive(Clone, Copy, Debug, PartialEq, Eq)]
pub enum BinOp {
    Addi,
    Subi,
    Muli,
    Andi,
    Ori,
    Xori,
    Minsi,
    Maxsi,
    Minui,
    Maxui,
    Shli,
    Shrui,
    Shrsi,
    Divui,
    Remui,
    Divsi,
    Remsi,
}

/// An operation of the MLIR `arith` dialect that changes the width of a word.
#[derive(Clone, Copy, Debug, PartialEq, Eq)]
pub enum CastOp {
    Extsi,
    IndexCast,
    Extui,
    IndexCastui,
    Trunci,
}

/// A predicate of `arith.cmpi`: equality, or an order of the signed or the unsigned readings.
#[derive(Clone, Copy, Debug, PartialEq, Eq)]
pub enum Pred {
    Eq,
    Ne,
    Slt,
    Sle,
    Sgt,
    Sge,
    Ult,
    Ule,
    Ugt,
    Uge,
}

/// What an operation gives: a word, or a trap where MLIR has undefined behaviour.
#[derive(Clone, Copy, Debug, PartialEq, Eq)]
pub enum Step {
    Value(Word),
    Trap,
}
