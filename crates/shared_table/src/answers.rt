//! What the calls that put words answer.

/// What a put of a record gives.
#[derive(Clone, Copy, Debug, PartialEq, Eq)]
pub enum Put {
    /// The record stands at this log place.
    At(u16),
    /// Every log place is full.
    Full,
}

/// What a put of a memo's key or id gives, or a clearing of an id.
#[derive(Clone, Copy, Debug, PartialEq, Eq)]
pub enum Kept {
    /// The place was written.
    At(u32),
    /// The place held this other word, and was left as it is.
    Lost(u64),
}

/// What a put of a cell gives.
#[derive(Clone, Copy, Debug, PartialEq, Eq)]
pub enum CellPut {
    /// The cell with this number holds the word.
    Home(u32),
    /// Every cell is full, and none holds the word.
    Full,
}

/// An interned expression: the number of the cell at its root.
#[derive(Clone, Copy, Debug, PartialEq, Eq)]
pub struct Node(pub u32);
