//! What a handle knows of the table. No value of these types is made: they are for contracts.
use crate::words::Place;
use std::collections::LinkedList;

/// One event of a handle, with the word that it found.
pub enum Access {
    /// The place, and the word found.
    Loaded(Place, u64),
    /// The place, the word to put, and the word found.
    TriedLog(u16, u64, u64),
    TriedCell(u32, u64, u64),
    TriedKey(u32, u64, u64),
    TriedId(u32, u64, u64),
    /// The place, the word to clear, and the word found.
    TriedClear(u32, u64, u64),
    Noted,
    Met,
}

/// What a view had seen before a join.
pub struct Old {
    pub log: LinkedList<u64>,
    pub keys: LinkedList<(u32, u64)>,
    pub cells: LinkedList<(u32, u64)>,
}

/// What a handle has seen and done.
pub struct View {
    /// Whether the handle was joined to another.
    pub spent: bool,
    /// The text that the table was opened with, and the number of authors.
    pub base: LinkedList<u8>,
    pub count: u8,
    /// The log's records that were seen, from version 1 on.
    pub log: LinkedList<u64>,
    /// The memo keys and the cells that were seen, by place and word.
    pub keys: LinkedList<(u32, u64)>,
    pub cells: LinkedList<(u32, u64)>,
    /// What the two views of the last join had seen; none before one.
    pub olds: LinkedList<Old>,
    /// The authors whose records the handle may publish.
    pub authors: LinkedList<u8>,
    /// Its events in order.
    pub events: LinkedList<Access>,
}
