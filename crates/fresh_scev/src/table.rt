use crate::fact::Fact;
use arith_word::Label;
use sqlite_items::Items;
use std::alloc::Global;

/// The facts so far: those of the items before, and those of the item under way. `conditions` are
/// those of the `scf.if`s in whose first regions the next operation stands.
#[derive(Drop)]
pub(crate) struct Table {
    pub alloc: Global,
    pub func: u8,
    pub items: Items<Items<Fact>>,
    pub here: Vec<Fact>,
    pub conditions: Vec<Label>,
}
