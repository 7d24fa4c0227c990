ghost use Rattle.std.specs.Prelude.{◌≢◌, ◌≤◌, length};
ghost use Rattle.step_core.specs.Words.{version_of};
ghost use Rattle.shared_table.specs.Known.{IsPassOf, IsSamePass};
ghost use Rattle.memo.specs.Keys.{GainsMemos};
ghost use Rattle.memo.specs.Seeking.{IsMet, SeeksBy, StandsMet};

use crate::key::hashed;
use shared_table::{Pass, Shared};
use step_core::{MemoMeaning, start};

/// The number of places on the path of a key.
pub(crate) const PATH: u32 = 8;

/// What a search for a key met.
#[derive(Clone, Copy, Debug, PartialEq, Eq)]
pub enum Met {
    /// A place without a key.
    Empty,
    /// The key itself: its place, and the word of the id beside it, which is 0 where there is none.
    Own(u32, u64),
    /// Other keys at all places of the path.
    Crowded,
}

/// Looks for a key along its path.
pub(crate) fn seek<M: MemoMeaning>(s: &Shared<M>, p: &mut Pass, key: u64) -> Met
    requires table { IsPassOf s.now.table.shared.table_id s.now.sizes p.old }
    requires version { version_of key ≤ length p.old.view.log }
    requires full { key ≢ 0 }
    ensures same { IsSamePass p.old p.new }
    ensures grows { GainsMemos p.old.view p.new.view }
    ensures events { SeeksBy M.meaning s.now.sizes p.old.view key result p.new.view }
    ensures met { IsMet s.now.sizes.memo result }
    ensures stands { StandsMet M.meaning p.new.view key result }
{
    p.facts();
    let size = s.sizes().memo;
    let first = start(hashed(key), size);
    for k in 0..PATH {
        let at = (first + k) % size;
        let word = s.load_key(p, at);
        if word == 0 {
            return Met::Empty;
        }
        if word == key {
            let id = s.load_id(p, at);
            return Met::Own(at, id);
        }
    }
    Met::Crowded
}
