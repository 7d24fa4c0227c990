use arith_word::Label;

/// What a badly formed function breaks.
#[derive(Clone, Copy, Debug, PartialEq, Eq)]
pub enum ShapeFault {
    /// An operand isn't in scope.
    Use,
    /// Types disagree, a literal doesn't fit its width, a name is badly formed or repeated while in
    /// scope, or flags stand where none may.
    WrongType,
    /// Lists that belong together differ in length.
    Count,
    /// A limit is passed.
    Size,
}

/// A break of a function's form. It stands in the function's head, in an argument, in an operation
/// or in a terminator; `at` is the last label that is given before that place begins, or the
/// function's first one where none is.
#[derive(Clone, Copy, Debug, PartialEq, Eq)]
pub struct Shape {
    pub at: Label,
    pub fault: ShapeFault,
}
