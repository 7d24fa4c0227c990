ghost use Rattle.std.specs.Prelude.{◌<◌, length};
ghost use Rattle.step_core.specs.Events.{MayPutCell};
ghost use Rattle.step_core.specs.Maps.{Has};
ghost use Rattle.shared_table.specs.CellPuts.{GainsCells, IsCellWord, IsPut, PutsAlong, VisitsCell};
ghost use Rattle.shared_table.specs.Known.{IsPassOf, IsSamePass};
ghost use Rattle.shared_table.specs.Steps.{PutsCell};

use crate::answers::CellPut;
use crate::pass::Pass;
use crate::play::PutCell;
use crate::shared::Shared;
use crate::sizes::FIRST_KEY;
use step_core::{MemoMeaning, start};

impl<M: MemoMeaning> Shared<M> {
    /// Tries to put a cell. Answers the word found.
    fn try_cell(&self, p: &mut Pass, at: u32, word: u64) -> u64
        requires table { IsPassOf self.now.table.shared.table_id self.now.sizes p.old }
        requires place { at < self.now.sizes.cells }
        requires word { MayPutCell self.now.sizes.cells p.old.view at word }
        ensures same { IsSamePass p.old p.new }
        ensures event { PutsCell word p.old.view at result p.new.view }
    {
        let memo = self.sizes.memo as usize;
        let i = FIRST_KEY + (memo + memo) + at as usize;
        self.table
            .shared
            .compare_exchange::<PutCell>(&mut p.seat, i, 0, word)
    }

    /// Loads a cell, and tries to put the word where it is empty. Answers the word that the cell
    /// then holds.
    fn visit_cell(&self, p: &mut Pass, at: u32, word: u64) -> u64
        requires table { IsPassOf self.now.table.shared.table_id self.now.sizes p.old }
        requires place { at < self.now.sizes.cells }
        requires word { MayPutCell self.now.sizes.cells p.old.view at word }
        ensures same { IsSamePass p.old p.new }
        ensures grows { GainsCells p.old.view p.new.view }
        ensures has { Has p.new.view.cells at result }
        ensures events { VisitsCell M.meaning p.old.view at word result p.new.view }
    {
        let found = self.load_cell(p, at);
        if found != 0 {
            return found;
        }
        let other = self.try_cell(p, at, word);
        if other == 0 { word } else { other }
    }

    /// The cell that holds a word, which is put where no cell holds it. It goes along the path of
    /// the word, from its start on and round the end.
    pub fn put_cell(&self, p: &mut Pass, word: u64) -> CellPut
        requires table { IsPassOf self.now.table.shared.table_id self.now.sizes p.old }
        requires author { 0 < length p.old.view.authors }
        requires word { IsCellWord p.old.view word }
        ensures same { IsSamePass p.old p.new }
        ensures grows { GainsCells p.old.view p.new.view }
        ensures put { IsPut self.now.sizes.cells p.new.view word result }
        ensures events { PutsAlong M.meaning self.now.sizes p.old.view word result p.new.view }
    {
        p.facts();
        let size = self.sizes.cells;
        let first = start(word, size);
        for k in 0..size {
            let at = (first + k) % size;
            if self.visit_cell(p, at, word) == word {
                return CellPut::Home(at);
            }
        }
        CellPut::Full
    }
}
