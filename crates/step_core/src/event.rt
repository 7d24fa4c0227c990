use crate::words::Place;

/// An atomic step of a session on the shared table. A seat is the place of its view in the list of
/// views. A put writes its word only where the place is empty.
#[derive(Clone, Copy, Debug, PartialEq, Eq)]
pub enum Event {
    /// A load of one word.
    Load { seat: u32, at: Place },
    /// A put of a record into the log.
    PutLog { seat: u32, at: u16, word: u64 },
    /// A put of a cell.
    PutCell { seat: u32, at: u32, word: u64 },
    /// A put of a memo's key.
    PutKey { seat: u32, at: u32, word: u64 },
    /// A put of a memo's id.
    PutId { seat: u32, at: u32, word: u64 },
    /// A memo's id is cleared where it is still the word `old`; its key stays.
    ClearId { seat: u32, at: u32, old: u64 },
    /// A fork: a new view begins with what this one has seen.
    Note { seat: u32, child: u32 },
    /// A join: this view has seen what both have seen, and the other is spent.
    Meet { seat: u32, other: u32 },
}

/// What an event answers.
#[derive(Clone, Copy, Debug, PartialEq, Eq)]
pub enum Seen {
    /// The word that a load found.
    Word(u64),
    /// The place was written.
    Won,
    /// The place held this other word, and was left as it is.
    Was(u64),
    /// A fork or a join took place.
    Done,
}
