//! Lists of a row: their parts are parted by commas, `-` is the empty list, and `COUNT*` repeats a part.

use crate::words::{arg, label, number, pack, type_named};
use arith_word::{Label, List};
use mlir_ir::{Arg, IrType, Pack};
use std::alloc::Global;

/// The word of an empty list.
const EMPTY: &str = "-";

/// A part of a list.
#[derive(Clone, Copy, Debug)]
struct Part<'a> {
    word: &'a str,
    /// The number of the repetition: that of the part, or else that of what the list stands in.
    turn: u64,
}

/// The parts of a list, each as often as it is repeated.
fn parts<'a>(alloc: Global, word: &'a str, turn: u64) -> anyhow::Result<Vec<Part<'a>>> {
    let mut parts = Vec::new(alloc);
    if word == EMPTY {
        return Ok(parts);
    }
    for part in word.split(',') {
        match part.split_once('*') {
            Some((count, word)) => {
                for turn in 0..number(count)? {
                    parts.push(Part { word, turn })?;
                }
            }
            None => parts.push(Part { word: part, turn })?,
        }
    }
    Ok(parts)
}

/// A list of arguments.
pub fn args(alloc: Global, word: &str, turn: u64) -> anyhow::Result<List<Arg>> {
    let mut list = Vec::new(alloc);
    for part in parts(alloc, word, turn)? {
        list.push(arg(alloc, part.word, part.turn)?)?;
    }
    Ok(List::from_vec(list))
}

/// A list of names with their numbers of results.
pub fn packs(alloc: Global, word: &str, turn: u64) -> anyhow::Result<List<Pack>> {
    let mut list = Vec::new(alloc);
    for part in parts(alloc, word, turn)? {
        list.push(pack(alloc, part.word, part.turn)?)?;
    }
    Ok(List::from_vec(list))
}

/// A list of types.
pub fn types(alloc: Global, word: &str) -> anyhow::Result<List<IrType>> {
    let mut list = Vec::new(alloc);
    for part in parts(alloc, word, 0)? {
        list.push(type_named(part.word)?)?;
    }
    Ok(List::from_vec(list))
}

/// A list of labels.
pub fn labels(alloc: Global, word: &str) -> anyhow::Result<List<Label>> {
    let mut list = Vec::new(alloc);
    for part in parts(alloc, word, 0)? {
        list.push(label(part.word)?)?;
    }
    Ok(List::from_vec(list))
}
