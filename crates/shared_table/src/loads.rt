ghost use Rattle.std.specs.Prelude.{◌≡◌, ◌≢◌, ℕ, ◌<◌, ◌≤◌, []};
ghost use Rattle.step_core.specs.declared.limits.TheConstants.{MOST_PUBLICATIONS};
ghost use Rattle.step_core.specs.declared.words.Place.{Place};
ghost use Rattle.step_core.specs.Events.{view_after_load};
ghost use Rattle.step_core.specs.Maps.{Has};
ghost use Rattle.step_core.specs.Words.{IsIdWord};
ghost use Rattle.shared_table.specs.Known.{IsPassOf, IsSamePass};
ghost use Rattle.shared_table.specs.Steps.{AsSeen, IsCellLoaded, IsIdLoaded, LearnsCell, LearnsId, StandsHere};

use crate::pass::{Pass, seen_after};
use crate::play::{LoadCell, LoadId, LoadKey, LoadLog};
use crate::shared::Shared;
use crate::sizes::{FIRST_KEY, Sizes};
use step_core::MemoMeaning;

impl<M: MemoMeaning> Shared<M> {
    /// The sizes that the table was opened with.
    pub fn sizes(&self) -> Sizes
        ensures { result ≡ self.now.sizes }
    {
        self.sizes
    }

    /// Loads the word of a log place. Places are counted from 1, as versions are.
    pub fn load_log(&self, p: &mut Pass, k: u16) -> u64
        requires table { IsPassOf self.now.table.shared.table_id self.now.sizes p.old }
        requires place { (1 ≤ k) × (k ≤ MOST_PUBLICATIONS) }
        ensures same { IsSamePass p.old p.new }
        ensures event { p.new.view ≡ view_after_load p.old.view (Place.Log k) result [] }
        ensures seen { AsSeen p.old.view k result }
    {
        let found = self.table.shared.load::<LoadLog>(&mut p.seat, k as usize);
        p.seen = seen_after(p.seen, k, found);
        found
    }

    /// Loads the key word of a memo place.
    pub fn load_key(&self, p: &mut Pass, at: u32) -> u64
        requires table { IsPassOf self.now.table.shared.table_id self.now.sizes p.old }
        requires place { at < self.now.sizes.memo }
        ensures same { IsSamePass p.old p.new }
        ensures event { p.new.view ≡ view_after_load p.old.view (Place.Key at) result [] }
        ensures seen { (word : ℕ) → Has p.old.view.keys at word → result ≡ word }
    {
        self.table
            .shared
            .load::<LoadKey>(&mut p.seat, FIRST_KEY + at as usize)
    }

    /// Loads the id word of a memo place.
    pub fn load_id(&self, p: &mut Pass, at: u32) -> u64
        requires table { IsPassOf self.now.table.shared.table_id self.now.sizes p.old }
        requires place { at < self.now.sizes.memo }
        ensures same { IsSamePass p.old p.new }
        ensures event { IsIdLoaded p.old.view at result p.new.view }
        ensures cells { LearnsId p.old.view result p.new.view }
        ensures stands { StandsHere M.meaning p.old.view at result p.new.view }
        ensures word { result ≢ 0 → IsIdWord result }
    {
        let word = FIRST_KEY + self.sizes.memo as usize + at as usize;
        self.table.shared.load::<LoadId<M>>(&mut p.seat, word)
    }

    /// Loads a cell.
    pub fn load_cell(&self, p: &mut Pass, id: u32) -> u64
        requires table { IsPassOf self.now.table.shared.table_id self.now.sizes p.old }
        requires place { id < self.now.sizes.cells }
        ensures same { IsSamePass p.old p.new }
        ensures event { IsCellLoaded p.old.view id result p.new.view }
        ensures cells { LearnsCell p.old.view id result p.new.view }
        ensures seen { (word : ℕ) → Has p.old.view.cells id word → result ≡ word }
        ensures has { result ≢ 0 → Has p.new.view.cells id result }
    {
        let memo = self.sizes.memo as usize;
        let word = FIRST_KEY + (memo + memo) + id as usize;
        self.table.shared.load::<LoadCell>(&mut p.seat, word)
    }
}
