ghost use Rattle.std.specs.Prelude.{◌≡◌, ℕ, List, true};
ghost use Rattle.step_core.specs.declared.words.Place.{Place};
ghost use Rattle.step_core.specs.Answers.{IsPlace};
ghost use Rattle.step_core.specs.Good.{IsKeyAt};
ghost use Rattle.shared_table.specs.Known.{IsPassOf};
ghost use Rattle.table_runs.specs.Plain.{plain};

use crate::plain::Plain;
use crate::session::{number_word, put_number, record_of};
use shared_table::{CellPut, Kept, Pass, Put, Shared};
use step_core::{Event, Place, Seen, Words, step};

/// A table that one session uses, and words on which the same events are replayed.
#[derive(Drop)]
pub struct Single<'a> {
    pub shared: &'a Shared<Plain>,
    pub pass: Pass,
    pub words: Words,
    pub ghost mine: { IsPassOf shared.now.table.shared.table_id shared.now.sizes pass },
}

/// Whether the words have the place.
fn has_place(words: &Words, at: Place) -> bool
    ensures { result ≡ true → IsPlace words.now at }
{
    match at {
        Place::Log(k) => 1 <= k && k as usize <= words.log.len(),
        Place::Key(k) => (k as usize) < words.keys.len(),
        Place::Id(k) => (k as usize) < words.ids.len(),
        Place::Cell(k) => (k as usize) < words.cells.len(),
    }
}

impl Single<'_> {
    /// Loads a cell on both.
    pub fn load(&mut self, at: u32) -> bool {
        if at >= self.shared.sizes().cells || !has_place(&self.words, Place::Cell(at)) {
            return true;
        }
        let word = self.shared.load_cell(&mut self.pass, at);
        let e = Event::Load {
            seat: 0,
            at: Place::Cell(at),
        };
        step(&mut self.words, &e) == Seen::Word(word)
    }

    /// Puts a key on both.
    pub fn put_key(&mut self, at: u32, label: u32) -> bool {
        if at >= self.shared.sizes().memo || !has_place(&self.words, Place::Key(at)) {
            return true;
        }
        let word = key_word(label);
        let e = Event::PutKey { seat: 0, at, word };
        let seen = match self.shared.put_key(&mut self.pass, at, word) {
            Kept::At(_) => Seen::Won,
            Kept::Lost(found) => Seen::Was(found),
        };
        step(&mut self.words, &e) == seen
    }

    /// Puts a number as a cell on both.
    pub fn put_number(&mut self, n: u32) -> bool {
        let word = number_word(u64::from(n));
        let Some(CellPut::Home(at)) = put_number(self.shared, &mut self.pass, u64::from(n)) else {
            return true;
        };
        let e = Event::PutCell { seat: 0, at, word };
        if !has_place(&self.words, Place::Cell(at)) {
            return true;
        }
        match step(&mut self.words, &e) {
            Seen::Won => true,
            seen => seen == Seen::Was(word),
        }
    }

    /// Publishes a record on both.
    pub fn publish(&mut self) -> bool {
        let from = self.pass.seen() + 1;
        let Some(author) = self.pass.author() else {
            return true;
        };
        if author > 15 {
            return true;
        }
        let word = record_of(author);
        let Put::At(at) = self.shared.put_log(&mut self.pass, from, word) else {
            return true;
        };
        let e = Event::PutLog { seat: 0, at, word };
        !has_place(&self.words, Place::Log(at)) || step(&mut self.words, &e) == Seen::Won
    }
}

/// The key of a label of the base.
fn key_word(label: u32) -> u64
    ensures { (base log : List ℕ) → IsKeyAt plain base log result }
{
    (1 << 63) + u64::from(label)
}

/// Makes steps that a seed gives on the table and on the words, and tells whether all answers
/// agree. In the end each cell is loaded.
pub fn steps_are_same(single: &mut Single, count: u32) -> bool {
    let mut seed: u64 = 0x2545_F491_4F6C_DD1D;
    for _ in 0..count {
        seed = seed.wrapping_mul(6_364_136_223_846_793_005).wrapping_add(1);
        let n = (seed >> 40) as u32 % 80;
        let at = (seed >> 50) as u32 % 64;
        let same = match (seed >> 33) % 4 {
            0 => single.load(at),
            1 => single.put_key(at, n),
            2 => single.put_number(n),
            _ => single.publish(),
        };
        if !same {
            return false;
        }
    }
    for at in 0..64 {
        if !single.load(at) {
            return false;
        }
    }
    true
}
