use sqlite_items::Items;

/// The words of the table, where 0 is an empty place. A memo's key and id have the same number.
#[derive(Debug, Drop)]
pub struct Words {
    pub log: Items<u64>,
    pub keys: Items<u64>,
    pub ids: Items<u64>,
    pub cells: Items<u64>,
}

/// A place of the table. Log places are counted from 1, as versions are, and all others from 0.
#[derive(Clone, Copy, Debug, PartialEq, Eq)]
pub enum Place {
    Log(u16),
    Key(u32),
    Id(u32),
    Cell(u32),
}
