ghost use Rattle.std.specs.Prelude.{◌≡◌, ◌≤◌};
ghost use Rattle.step_core.specs.declared.limits.TheConstants.{MOST_PLACES};
ghost use Rattle.shared_table.specs.Rule.{word_count};

use crate::rule::{About, TableOf};
use crate::sizes::{SizedView, Sizes};
use atomic_table::Table;
use std::alloc::Global;
use step_core::MemoMeaning;

/// The table of one text that up to sixteen sessions share.
#[derive(Drop)]
pub struct Shared<M: MemoMeaning> {
    pub(crate) table: Table<u8, SizedView, About, TableOf<M>, Global>,
    pub(crate) sizes: Sizes,
    pub ghost sized: { sizes ≡ table.shared.key.sizes },
    pub ghost wide: { table.shared.table_id.words ≡ word_count sizes },
    pub ghost slotless: { table.shared.table_id.slots ≡ 0 },
    pub ghost in_range: { (sizes.cells ≤ MOST_PLACES) × (sizes.memo ≤ MOST_PLACES) },
}
