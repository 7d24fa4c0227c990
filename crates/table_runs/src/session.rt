ghost use Rattle.std.specs.Prelude.{◌≡◌, ◌<◌, ◌^◌};
ghost use Rattle.step_core.specs.Parts.{leaf_word};
ghost use Rattle.shared_table.specs.Known.{IsPassOf, IsSamePass};
ghost use Rattle.table_runs.specs.Plain.{AreAllOf, IsRecordOf};

use crate::plain::Plain;
use shared_table::{CellPut, Pass, Put, Shared};
use std::alloc::{AllocError, Global};

/// How many numbers each session puts as cells, more than there are cells.
const NUMBERS: u64 = 80;

/// One session of a table, and what its calls answered.
#[derive(Drop)]
pub struct Session<'a> {
    pub shared: &'a Shared<Plain>,
    pub pass: Pass,
    pub places: Vec<u16>,
    /// The numbers that were put, each with its cell, or `u32::MAX` where all cells were full.
    pub homes: Vec<(u64, u32)>,
    pub full: bool,
    /// Whether no answer was wrong so far.
    pub exact: bool,
    pub ghost mine: { IsPassOf shared.now.table.shared.table_id shared.now.sizes pass },
}

/// A record that reverses the loop with label 0 of the base.
pub fn record_of(author: u8) -> u64
    requires { author < 16 }
    ensures { IsRecordOf author result }
{
    (1 << 63) + u64::from(author) * (1 << 53) + 1
}

/// The cell of a number below 2^56.
pub fn number_word(n: u64) -> u64
    requires { n < 2 ^ 56 }
    ensures { result ≡ leaf_word n }
{
    (1 << 61) + n
}

impl Session<'_> {
    /// Publishes records until the log is full.
    pub fn publish_all(&mut self) {
        for _ in 0..4096u32 {
            let from = self.pass.seen() + 1;
            let Some(author) = self.pass.author() else {
                return;
            };
            if author > 15 {
                return;
            }
            match self.shared.put_log(&mut self.pass, from, record_of(author)) {
                Put::Full => {
                    self.full = true;
                    return;
                }
                Put::At(k) => {
                    if self.places.push(k).is_err() {
                        return;
                    }
                }
            }
        }
    }

    /// Puts numbers as cells, from one on and round the end.
    pub fn put_numbers(&mut self, from: u64) {
        for k in 0..NUMBERS {
            let n = (from % NUMBERS + k) % NUMBERS;
            let home = match put_number(self.shared, &mut self.pass, n) {
                Some(CellPut::Home(id)) => id,
                _ => u32::MAX,
            };
            if self.homes.push((n, home)).is_err() {
                return;
            }
        }
    }
}

/// Puts a number as a cell, where the pass has an author.
pub fn put_number(shared: &Shared<Plain>, p: &mut Pass, n: u64) -> Option<CellPut>
    requires table { IsPassOf shared.now.table.shared.table_id shared.now.sizes p.old }
    requires number { n < 2 ^ 56 }
    ensures same { IsSamePass p.old p.new }
{
    let Some(_author) = p.author() else {
        return None;
    };
    Some(shared.put_cell(p, number_word(n)))
}

/// A session for each pass.
pub fn sessions_of<'a>(
    alloc: Global,
    shared: &'a Shared<Plain>,
    mut passes: Vec<Pass>,
) -> Result<Vec<Session<'a>>, AllocError>
    requires { AreAllOf shared.now.table.shared.table_id shared.now.sizes passes.items }
{
    let mut sessions = Vec::new(alloc);
    while let Some(pass) = passes.pop() {
        sessions.push(Session {
            shared,
            pass,
            places: Vec::new(alloc),
            homes: Vec::new(alloc),
            full: false,
            exact: true,
        })?;
    }
    Ok(sessions)
}
