//! Words of a row: numbers, labels, types, names, operations and predicates.

use anyhow::bail;
use arith_word::{BinOp, CastOp, Label, Pred, Text, Width};
use mlir_ir::{Arg, IrType, Pack};
use std::alloc::Global;

/// The greatest number of an item in a label.
const MAX_ITEM: u64 = 1023;

/// The greatest index in a label.
const MAX_INDEX: u64 = 16383;

const BIN_OPS: [(&str, BinOp); 17] = [
    ("addi", BinOp::Addi),
    ("subi", BinOp::Subi),
    ("muli", BinOp::Muli),
    ("andi", BinOp::Andi),
    ("ori", BinOp::Ori),
    ("xori", BinOp::Xori),
    ("minsi", BinOp::Minsi),
    ("maxsi", BinOp::Maxsi),
    ("minui", BinOp::Minui),
    ("maxui", BinOp::Maxui),
    ("shli", BinOp::Shli),
    ("shrui", BinOp::Shrui),
    ("shrsi", BinOp::Shrsi),
    ("divui", BinOp::Divui),
    ("remui", BinOp::Remui),
    ("divsi", BinOp::Divsi),
    ("remsi", BinOp::Remsi),
];

const CAST_OPS: [(&str, CastOp); 5] = [
    ("extsi", CastOp::Extsi),
    ("index_cast", CastOp::IndexCast),
    ("extui", CastOp::Extui),
    ("index_castui", CastOp::IndexCastui),
    ("trunci", CastOp::Trunci),
];

const PREDS: [(&str, Pred); 10] = [
    ("eq", Pred::Eq),
    ("ne", Pred::Ne),
    ("slt", Pred::Slt),
    ("sle", Pred::Sle),
    ("sgt", Pred::Sgt),
    ("sge", Pred::Sge),
    ("ult", Pred::Ult),
    ("ule", Pred::Ule),
    ("ugt", Pred::Ugt),
    ("uge", Pred::Uge),
];

/// The operation on two words with that name.
pub fn bin_op(word: &str) -> Option<BinOp> {
    for (name, op) in BIN_OPS {
        if name == word {
            return Some(op);
        }
    }
    None
}

/// The change of width with that name.
pub fn cast_op(word: &str) -> Option<CastOp> {
    for (name, op) in CAST_OPS {
        if name == word {
            return Some(op);
        }
    }
    None
}

/// The predicate with that name.
pub fn predicate(word: &str) -> anyhow::Result<Pred> {
    for (name, pred) in PREDS {
        if name == word {
            return Ok(pred);
        }
    }
    bail!("no predicate: `{word}`")
}

/// A decimal number.
pub fn number(word: &str) -> anyhow::Result<u64> {
    match word.parse::<u64>() {
        Ok(n) => Ok(n),
        Err(_) => bail!("no number: `{word}`"),
    }
}

/// A number of at most 255.
pub fn small_number(word: &str) -> anyhow::Result<u8> {
    match word.parse::<u8>() {
        Ok(n) => Ok(n),
        Err(_) => bail!("no number of at most 255: `{word}`"),
    }
}

/// `FUNC.ITEM.INDEX` or `ITEM.INDEX`.
pub fn label(word: &str) -> anyhow::Result<Label> {
    let Some((first, rest)) = word.split_once('.') else {
        bail!("no label: `{word}`");
    };
    let (func, item, index) = match rest.split_once('.') {
        Some((item, index)) => (small_number(first)?, number(item)?, number(index)?),
        None => (0, number(first)?, number(rest)?),
    };
    if item > MAX_ITEM || index > MAX_INDEX {
        bail!("no label: `{word}`");
    }
    Ok(Label::new(func, item as usize, index as usize))
}

/// `i1` to `i64`, or `index`.
pub fn type_named(word: &str) -> anyhow::Result<IrType> {
    if word == "index" {
        return Ok(IrType::Index);
    }
    let Some(bits) = word.strip_prefix('i') else {
        bail!("no type: `{word}`");
    };
    match Width::new(small_number(bits)? as u32) {
        Some(width) => Ok(IrType::Int(width)),
        None => bail!("no type: `{word}`"),
    }
}

/// Adds the name without `^`, in the repetition with that number.
fn push_name(alloc: Global, name: &mut String, word: &str, turn: u64) -> anyhow::Result<()> {
    for c in word.chars() {
        match c {
            '~' => name.push(' ')?,
            '#' => {
                let number = turn.to_string(alloc)?;
                name.push_str(&number)?;
            }
            _ => name.push(c)?,
        }
    }
    Ok(())
}

/// A name, in the repetition with that number.
pub fn name(alloc: Global, word: &str, turn: u64) -> anyhow::Result<Text> {
    let (part, count) = match word.split_once('^') {
        Some((part, count)) => (part, number(count)?),
        None => (word, 1),
    };
    let mut name = String::new(alloc);
    for _ in 0..count {
        push_name(alloc, &mut name, part, turn)?;
    }
    Ok(Text::from_string(name))
}

/// `NAME:TYPE`, in the repetition with that number.
pub fn arg(alloc: Global, word: &str, turn: u64) -> anyhow::Result<Arg> {
    let Some((left, right)) = word.split_once(':') else {
        bail!("no argument: `{word}`");
    };
    Ok(Arg {
        name: name(alloc, left, turn)?,
        ty: type_named(right)?,
    })
}

/// `NAME:RESULTS`, in the repetition with that number.
pub fn pack(alloc: Global, word: &str, turn: u64) -> anyhow::Result<Pack> {
    let Some((left, right)) = word.split_once(':') else {
        bail!("no name with a number of results: `{word}`");
    };
    Ok(Pack {
        name: name(alloc, left, turn)?,
        count: small_number(right)?,
    })
}
