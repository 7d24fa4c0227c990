ghost use Rattle.std.specs.Prelude.{◌≡◌, ◌<◌, ◌^◌};
ghost use Rattle.step_core.specs.Parts.{leaf_word};
ghost use Rattle.shared_table.specs.Known.{IsPassOf, IsSamePass};
ghost use Rattle.table_runs.specs.Plain.{AreAllOf};

use arith_word::{Label, Width};
use memo::{Found, find, keep};
use scev_tree::{Expr, chain};
use shared_table::{CellPut, Node, Pass, Shared, Sizes, open};
use std::alloc::{AllocError, Global};
use std::rt::Clock;
use std::thread::{self, Threads};
use std::time::Instant;
use step_core::{MemoMeaning, start};
use uniquing::intern;
use version_log::front;

/// How many sessions a table has.
const SESSIONS: u8 = 16;

/// How many cells a table has.
const CELLS: u32 = 65_536;

/// How many calls of a kind a session makes.
const CALLS: u32 = 100_000;

/// A multiplier that scatters numbers.
const FACTOR: u64 = 6364136223846793005;

/// A meaning of memos by which each key is valid, and stands together with the number 1.
#[derive(Drop)]
struct Plain;

impl MemoMeaning for Plain {
    ghost use Rattle.table_runs.specs.Plain.{plain, plain_laws};

    ghost meaning = { plain };

    ghost laws = { plain_laws };
}

/// What a session does over and over.
#[derive(Clone, Copy, Debug, PartialEq, Eq)]
enum Work {
    /// `find` of a memo that is kept.
    Find,
    /// `front` with nothing new.
    Front,
    /// `intern` of an expression whose parts all have cells.
    Intern,
}

/// A session of a table, with the expression that it interns.
#[derive(Drop)]
struct Session<'a> {
    shared: &'a Shared<Plain>,
    pass: Pass,
    e: &'a Expr,
    /// How often a node or a record was found.
    hits: u32,
    ghost mine: { IsPassOf shared.now.table.shared.table_id shared.now.sizes pass },
}

/// A number below 2^56 that looks random.
fn scattered(n: u64) -> u64
    ensures { result < 2 ^ 56 }
{
    let once = n.wrapping_add(1).wrapping_mul(FACTOR);
    (once ^ (once >> 29)).wrapping_mul(FACTOR) >> 8
}

/// The cell of a number below 2^56.
fn number_word(n: u64) -> u64
    requires { n < 2 ^ 56 }
    ensures { result ≡ leaf_word n }
{
    (1 << 61) + n
}

/// Keeps the number 1 under a label of the base.
fn keep_one(shared: &Shared<Plain>, p: &mut Pass, label: u32)
    requires table { IsPassOf shared.now.table.shared.table_id shared.now.sizes p.old }
    ensures same { IsSamePass p.old p.new }
{
    let Some(_author) = p.author() else {
        return;
    };
    if let CellPut::Home(id) = shared.put_cell(p, number_word(1)) {
        let _ = keep(shared, p, 0, Label(label), Node(id));
    }
}

impl Session<'_> {
    /// Interns the session's expression. Answers whether it has a node.
    fn intern_one(&mut self) -> bool {
        let Some(_author) = self.pass.author() else {
            return false;
        };
        intern(self.shared, &mut self.pass, self.e).is_ok()
    }

    /// Looks for the memo of label 0. Answers whether it is kept.
    fn find_one(&mut self) -> bool {
        match find(self.shared, &mut self.pass, 0, Label(0)) {
            Found::Node(_) => true,
            Found::Absent => false,
        }
    }

    /// How many places `put_cell` visits for a number below 2^56.
    #[tactic(auto, using(table_runs::proofs::Authors::is_65536))]
    fn places_of(&mut self, n: u64) -> u64
        requires { n < 2 ^ 56 }
    {
        let Some(_author) = self.pass.author() else {
            return 0;
        };
        let word = number_word(n);
        match self.shared.put_cell(&mut self.pass, word) {
            CellPut::Home(id) => u64::from(id.wrapping_sub(start(word, CELLS)) % CELLS) + 1,
            CellPut::Full => 0,
        }
    }

    /// How many places it takes on average to find a number that has a cell, in hundredths, where half
    /// of the cells are full.
    fn hundredths_of_a_place(&mut self) -> u64 {
        let mut places: u64 = 0;
        for n in 0..CELLS / 2 {
            places = places.saturating_add(self.places_of(scattered(u64::from(n))));
        }
        places.saturating_mul(100) / u64::from(CELLS / 2)
    }

    fn make_call(&mut self, work: Work) {
        let hit = match work {
            Work::Find => self.find_one(),
            Work::Front => front(self.shared, &mut self.pass) > 0,
            Work::Intern => self.intern_one(),
        };
        self.hits = self.hits.saturating_add(u32::from(hit));
    }

    fn make_calls(&mut self, work: Work) {
        for _ in 0..CALLS {
            self.make_call(work);
        }
    }
}

/// A session for each pass.
fn sessions_of<'a>(
    alloc: Global,
    shared: &'a Shared<Plain>,
    e: &'a Expr,
    mut passes: Vec<Pass>,
) -> Result<Vec<Session<'a>>, AllocError>
    requires { AreAllOf shared.now.table.shared.table_id shared.now.sizes passes.items }
{
    let mut sessions = Vec::new(alloc);
    while let Some(pass) = passes.pop() {
        sessions.push(Session {
            shared,
            pass,
            e,
            hits: 0,
        })?;
    }
    Ok(sessions)
}

/// The nanoseconds of a call, where that many sessions make calls at once.
fn nanoseconds<R: Threads + Sync + Clock>(
    rt: &R,
    sessions: &mut [Session],
    work: Work,
) -> anyhow::Result<u128> {
    let threads = sessions.len();
    if threads == 0 {
        return Ok(0);
    }
    let begin = Instant::now(rt)?;
    thread::for_each_mut(
        rt,
        sessions,
        threads,
        &|_i: usize, s: &mut Session| { s.make_calls(work) },
    );
    Ok(begin.elapsed(rt)?.as_nanos() / u128::from(CALLS))
}

/// The times of calls by one session and by sixteen.
fn show<R: Print + Clock + Threads + Sync>(
    rt: &R,
    name: &str,
    sessions: &mut [Session],
    work: Work,
) -> anyhow::Result<()> {
    let all = nanoseconds(rt, &mut sessions[..], work)?;
    let alone = match sessions.first_mut() {
        Some(first) => nanoseconds(rt, std::slice::from_mut(first), work)?,
        None => 0,
    };
    let hits = sessions.first().map_or(0, |s| s.hits);
    println!(rt;
        "{name}: {alone} ns alone, {all} ns a round of sixteen sessions ({hits} found so far)"
    )?;
    Ok(())
}

/// A table that sixteen sessions use: the times of its calls, and the length of a cell's path.
#[tactic(auto, using(table_runs::proofs::Authors::is_65536, table_runs::proofs::Authors::all_dealt))]
pub(super) fn run<R: Print + Clock + Threads + Sync + AllocGlobal>(rt: &R) -> anyhow::Result<()> {
    let alloc = rt.alloc();
    let Some(width) = Width::new(64) else {
        return Ok(());
    };
    let e = chain(alloc, width, Label(3), &[5, 7])?;
    let sizes = Sizes {
        cells: CELLS,
        memo: CELLS,
    };
    let (shared, passes) = open::<Plain>(alloc, b"", SESSIONS, sizes)?;
    let mut sessions = sessions_of(alloc, &shared, &e, passes)?;
    if let Some(first) = sessions.first_mut() {
        keep_one(first.shared, &mut first.pass, 0);
        let places = first.hundredths_of_a_place();
        println!(rt; "a number that has a cell: {places} hundredths of a place")?;
    }
    show(rt, "find", sessions.as_mut_slice(), Work::Find)?;
    show(rt, "front", sessions.as_mut_slice(), Work::Front)?;
    show(rt, "intern", sessions.as_mut_slice(), Work::Intern)?;
    Ok(())
}
