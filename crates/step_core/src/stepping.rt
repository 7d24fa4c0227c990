ghost use Rattle.std.specs.Prelude.{◌≡◌, ◌<◌, length, slice_index, IfOk, OnOk, OnErr};
ghost use Rattle.step_core.specs.Answers.{IsAtPlace, IsPlace, after_clear, after_put, answer_of, answer_of_clear, answer_of_put, answers_of, word_at, words_after, words_after_all};
ghost use Rattle.step_core.specs.Maps.{AllOf};

use crate::event::{Event, Seen};
use crate::words::{Place, Words};
use sqlite_items::Items;
use std::alloc::{AllocError, Global};

/// The word at the place.
fn load(w: &Words, at: Place) -> u64
    requires { IsPlace w.now at }
    ensures { result ≡ word_at w.now at }
{
    match at {
        Place::Log(k) => w.log.as_slice()[k as usize - 1],
        Place::Key(k) => w.keys.as_slice()[k as usize],
        Place::Id(k) => w.ids.as_slice()[k as usize],
        Place::Cell(k) => w.cells.as_slice()[k as usize],
    }
}

/// Writes the word where the place is empty.
fn put(words: &mut Items<u64>, at: usize, word: u64) -> Seen
    requires { at < length words.old }
    ensures answer { result ≡ answer_of_put (slice_index words.old at) }
    ensures words { words.new ≡ after_put words.old at word }
{
    let found = words.as_slice()[at];
    if found == 0 {
        words.set(at, word);
        Seen::Won
    } else {
        Seen::Was(found)
    }
}

/// Empties the place where it holds the old word.
fn clear(words: &mut Items<u64>, at: usize, old: u64) -> Seen
    requires { at < length words.old }
    ensures answer { result ≡ answer_of_clear (slice_index words.old at) old }
    ensures words { words.new ≡ after_clear words.old at old }
{
    let found = words.as_slice()[at];
    if found == old {
        words.set(at, 0);
        Seen::Won
    } else {
        Seen::Was(found)
    }
}

/// Makes the event's step on the words. Forks and joins change no word.
pub fn step(w: &mut Words, e: &Event) -> Seen
    requires { IsAtPlace w.old e.now }
    ensures answer { result ≡ answer_of w.old e.now }
    ensures words { w.new ≡ words_after w.old e.now }
{
    match *e {
        Event::Load { at, .. } => Seen::Word(load(w, at)),
        Event::PutLog { at, word, .. } => put(&mut w.log, at as usize - 1, word),
        Event::PutCell { at, word, .. } => put(&mut w.cells, at as usize, word),
        Event::PutKey { at, word, .. } => put(&mut w.keys, at as usize, word),
        Event::PutId { at, word, .. } => put(&mut w.ids, at as usize, word),
        Event::ClearId { at, old, .. } => clear(&mut w.ids, at as usize, old),
        Event::Note { .. } | Event::Meet { .. } => Seen::Done,
    }
}

/// Makes the steps of the events, and gives their answers in order.
pub fn replay(alloc: Global, w: &mut Words, events: &[Event]) -> Result<Vec<Seen>, AllocError>
    requires { AllOf (IsAtPlace w.old) events.now }
    ensures answers { IfOk result (λ seen. seen.items ≡ answers_of w.old events.now) }
    ensures words { OnOk result (w.new ≡ words_after_all w.old events.now) }
    ensures err { OnErr result (w.new ≡ w.old) }
{
    let mut seen = Vec::with_capacity(alloc, events.len())?;
    for e in events {
        let answer = step(w, e);
        seen.push_reserved(answer);
    }
    Ok(seen)
}
