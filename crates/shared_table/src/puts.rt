ghost use Rattle.std.specs.Prelude.{◌≡◌, ℕ, ◌<◌};
ghost use Rattle.step_core.specs.Answers.{put_found};
ghost use Rattle.step_core.specs.Events.{MayPutId};
ghost use Rattle.step_core.specs.Good.{IsKeyAt};
ghost use Rattle.step_core.specs.Maps.{Has, times};
ghost use Rattle.step_core.specs.Words.{IsIdWord, IsRecordAt, author_of};
ghost use Rattle.shared_table.specs.Known.{IsPassOf, IsSamePass};
ghost use Rattle.shared_table.specs.Found.{IsKept, found_by};
ghost use Rattle.shared_table.specs.Puts.{IsNextOrEnd, IsNextPlace, IsSeenUpTo, PutsEnd};
ghost use Rattle.shared_table.specs.Steps.{IsClearTried, IsIdTried, LearnsId, LearnsUncleared, StandsHere, tried_key, tried_log};

use crate::answers::{Kept, Put};
use crate::pass::{Pass, seen_after};
use crate::play::{ClearId, PutId, PutKey, PutLog};
use crate::shared::Shared;
use crate::sizes::FIRST_KEY;
use step_core::{MOST_PUBLICATIONS, MemoMeaning};

impl<M: MemoMeaning> Shared<M> {
    /// Tries to put a record at a log place. Answers the word found.
    fn try_log(&self, p: &mut Pass, k: u16, rec: u64) -> u64
        requires table { IsPassOf self.now.table.shared.table_id self.now.sizes p.old }
        requires place { IsNextPlace k p.old.view }
        requires word { IsRecordAt k rec × (0 < times (author_of rec) p.old.view.authors) }
        ensures same { IsSamePass p.old p.new }
        ensures event { p.new.view ≡ tried_log p.old.view k rec result }
        ensures seen { IsSeenUpTo k p.new.view }
    {
        let found = self
            .table
            .shared
            .compare_exchange::<PutLog>(&mut p.seat, k as usize, 0, rec);
        let now = standing(found, rec);
        p.seen = seen_after(p.seen, k, now);
        found
    }

    /// Puts a record at the first log place that is empty, from a place on. It tries one place
    /// after another.
    pub fn put_log(&self, p: &mut Pass, from: u16, rec: u64) -> Put
        requires table { IsPassOf self.now.table.shared.table_id self.now.sizes p.old }
        requires place { IsNextOrEnd from p.old.view }
        requires word { IsRecordAt from rec × (0 < times (author_of rec) p.old.view.authors) }
        ensures same { IsSamePass p.old p.new }
        ensures events { PutsEnd p.old.view p.new.view from rec result }
    {
        let mut k = from;
        while k <= MOST_PUBLICATIONS {
            if self.try_log(p, k, rec) == 0 {
                return Put::At(k);
            }
            k += 1;
        }
        let _ = &p.seen;
        Put::Full
    }

    /// Puts a key word at a memo place.
    pub fn put_key(&self, p: &mut Pass, at: u32, word: u64) -> Kept
        requires table { IsPassOf self.now.table.shared.table_id self.now.sizes p.old }
        requires place { at < self.now.sizes.memo }
        requires word { IsKeyAt M.meaning p.old.view.base p.old.view.log word }
        ensures same { IsSamePass p.old p.new }
        ensures event { p.new.view ≡ tried_key p.old.view at word (found_by 0 result) }
        ensures answer { IsKept 0 at result }
        ensures seen { (x : ℕ) → Has p.old.view.keys at x → found_by 0 result ≡ x }
    {
        let i = FIRST_KEY + at as usize;
        let found = self
            .table
            .shared
            .compare_exchange::<PutKey>(&mut p.seat, i, 0, word);
        kept(at, 0, found)
    }

    /// Puts an id word at a memo place whose key the pass has seen.
    pub fn put_id(&self, p: &mut Pass, at: u32, word: u64) -> Kept
        requires table { IsPassOf self.now.table.shared.table_id self.now.sizes p.old }
        requires place { at < self.now.sizes.memo }
        requires word { MayPutId M.meaning p.old.view at word }
        ensures same { IsSamePass p.old p.new }
        ensures event { IsIdTried p.old.view at word (found_by 0 result) p.new.view }
        ensures answer { IsKept 0 at result }
        ensures cells { LearnsId p.old.view (found_by 0 result) p.new.view }
        ensures stands { StandsHere M.meaning p.old.view at (found_by 0 result) p.new.view }
    {
        let i = FIRST_KEY + self.sizes.memo as usize + at as usize;
        let found = self
            .table
            .shared
            .compare_exchange::<PutId<M>>(&mut p.seat, i, 0, word);
        kept(at, 0, found)
    }

    /// Empties an id place that has the word `old`. Its key stays.
    pub fn clear_id(&self, p: &mut Pass, at: u32, old: u64) -> Kept
        requires table { IsPassOf self.now.table.shared.table_id self.now.sizes p.old }
        requires place { at < self.now.sizes.memo }
        requires word { IsIdWord old }
        ensures same { IsSamePass p.old p.new }
        ensures event { IsClearTried p.old.view at old (found_by old result) p.new.view }
        ensures answer { IsKept old at result }
        ensures cells { LearnsUncleared p.old.view old (found_by old result) p.new.view }
    {
        let i = FIRST_KEY + self.sizes.memo as usize + at as usize;
        let found = self
            .table
            .shared
            .compare_exchange::<ClearId>(&mut p.seat, i, old, 0);
        kept(at, old, found)
    }
}

/// The word that stands at a place after a put that found a word there.
fn standing(found: u64, word: u64) -> u64
    ensures { result ≡ put_found found word }
{
    if found == 0 { word } else { found }
}

/// The answer of an exchange of the word `old` at the place, by the word that it found.
fn kept(at: u32, old: u64, found: u64) -> Kept
    ensures found { found_by old result ≡ found }
    ensures answer { IsKept old at result }
{
    if found == old {
        Kept::At(at)
    } else {
        Kept::Lost(found)
    }
}
