use arith_word::{List, Word};

/// A call of a function, by its index, with the words that are passed.
#[derive(Debug, Drop)]
pub struct Event {
    pub callee: u16,
    pub args: List<Word>,
}

/// How a run ends.
#[derive(Debug, Drop)]
pub enum Outcome {
    /// It returns these words.
    Ended(List<Word>),
    /// An operation traps.
    Trapped,
    /// A reply is missing.
    Starved,
    /// No budget is left.
    Cut,
}

/// How a run ends, and its calls in their order.
#[derive(Debug, Drop)]
pub struct Run {
    pub outcome: Outcome,
    pub trace: List<Event>,
}
