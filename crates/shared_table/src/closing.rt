ghost use Rattle.std.specs.Prelude.{◌≡◌, ℕ, ◌+◌, ◌^◌, ◌<◌, ◌≤◌, [], IfErr, IfOk, vec_capacity};
ghost use Rattle.std.specs.Mem.Slots.{IsFull, slots_items, slots_len};
ghost use Rattle.step_core.specs.Maps.{times};
ghost use Rattle.shared_table.specs.Known.{AreSizedBy, IsPassOf};
ghost use Rattle.shared_table.specs.Rule.{block, word_count, words_of};
ghost use Rattle.shared_table.specs.Closing.{HasRoom, IsGoodAlone};
ghost use Rattle.step_core.specs.declared.limits.TheConstants.{MOST_PLACES};

use crate::pass::Pass;
use crate::shared::Shared;
use crate::sizes::{FIRST_KEY, Sizes};
use atomic_table::Closed;
use sqlite_items::Items;
use std::alloc::{AllocError, Global};
use step_core::{MOST_PUBLICATIONS, MemoMeaning, Words};

/// Room for the words of a table.
#[derive(Drop)]
struct Room {
    log: Vec<u64>,
    keys: Vec<u64>,
    ids: Vec<u64>,
    cells: Vec<u64>,
}

fn make_room(alloc: Global, sizes: Sizes) -> Result<Room, AllocError>
    ensures { IfOk result (λ r. HasRoom sizes r) }
{
    Ok(Room {
        log: Vec::with_capacity(alloc, MOST_PUBLICATIONS as usize)?,
        keys: Vec::with_capacity(alloc, sizes.memo as usize)?,
        ids: Vec::with_capacity(alloc, sizes.memo as usize)?,
        cells: Vec::with_capacity(alloc, sizes.cells as usize)?,
    })
}

/// Copies words from the number `from` on.
fn copied(closed: &Closed<u8, Global>, from: usize, count: u32, mut words: Vec<u64>) -> Items<u64>
    requires full { IsFull closed.now.words × (from + count ≤ slots_len closed.now.words) }
    requires range { from < 2 ^ 32 }
    requires room { (words.items ≡ []) × (count ≤ vec_capacity words) }
    ensures { result ≡ block from count (slots_items closed.now.words) }
{
    for i in 0..count {
        words.push_reserved(closed.word(from + i as usize));
    }
    Items::from_vec(words)
}

/// All words of a table that is closed.
fn all_words(closed: &Closed<u8, Global>, sizes: Sizes, room: Room) -> Words
    requires full { IsFull closed.now.words × (slots_len closed.now.words ≡ word_count sizes) }
    requires sizes { (sizes.memo ≤ MOST_PLACES) × (sizes.cells ≤ MOST_PLACES) }
    requires room { HasRoom sizes room }
    ensures { result ≡ words_of sizes (slots_items closed.now.words) }
{
    let Room {
        log,
        keys,
        ids,
        cells,
    } = room;
    let memo = sizes.memo as usize;
    Words {
        log: copied(closed, 1, MOST_PUBLICATIONS as u32, log),
        keys: copied(closed, FIRST_KEY, sizes.memo, keys),
        ids: copied(closed, FIRST_KEY + memo, sizes.memo, ids),
        cells: copied(closed, FIRST_KEY + (memo + memo), sizes.cells, cells),
    }
}

impl<M: MemoMeaning> Shared<M> {
    /// Closes the table by a pass that has all authors. Where there is no memory for the words,
    /// both come back untouched.
    pub fn close(self, alloc: Global, p: Pass) -> Result<Words, (Shared<M>, Pass)>
        requires table { IsPassOf self.table.shared.table_id self.sizes p }
        requires all { (a : ℕ) → a < p.view.count → 0 < times a p.view.authors }
        ensures good { IfOk result (λ w. IsGoodAlone M.meaning p.view w) }
        ensures sized { IfOk result (λ w. AreSizedBy p.sizes w) }
        ensures err { IfErr result (λ r. (r.0 ≡ self) × (r.1 ≡ p)) }
    {
        let Ok(room) = make_room(alloc, self.sizes) else {
            return Err((self, p));
        };
        let Shared { table, sizes } = self;
        let Pass { seat, .. } = p;
        let closed = table.close_with(seat);
        let words = all_words(&closed, sizes, room);
        closed.free();
        Ok(words)
    }
}
