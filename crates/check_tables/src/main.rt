//! Checks functions of `mlir_ir`, one for each line of standard input, and prints for each what
//! `Func::check` finds: `ok`, or the fault and the label where it stands, as `wrong type at 1.2`.
//! The file `stdin` has functions with one break each, and `stdout` what the check has to find in
//! them. Those labels were worked out by hand.
//!
//! A line without words and a line that begins with `#` are skipped. Words are parted by blanks:
//!
//! ```text
//! ROW    = [FUNC] [private] @NAME ARGS -> TYPES [ITEM.. return LABELS]
//! ITEM   = [COUNT*] { OP.. }
//! OP     = [COUNT*] [PACKS TYPES =] KIND
//! KIND   = const NUMBER
//!        | addi [nsw] [nuw] LABEL LABEL      and the other operations of arith on two words
//!        | trunci [nsw] [nuw] LABEL          and the other changes of width
//!        | cmpi PREDICATE LABEL LABEL
//!        | select LABEL LABEL LABEL
//!        | call LABELS
//!        | if LABEL REGION [else REGION]
//!        | for LABEL LABEL LABEL ARG ARGS LABELS REGION
//!        | while ARGS LABELS { OP.. condition LABEL LABELS } do ARGS REGION
//! REGION = { OP.. yield LABELS }
//! ```
//!
//! - FUNC is the function's index, and 0 where it is left out. A row without `return` is a declaration.
//! - ARGS, TYPES, PACKS and LABELS are lists. The parts of a list are parted by commas, without a
//!   blank, and `-` is the empty list.
//! - An ARG is `NAME:TYPE`, a pack is `NAME:RESULTS`, and a TYPE is `i1` to `i64` or `index`.
//! - A LABEL is `FUNC.ITEM.INDEX`, or `ITEM.INDEX` in the function 0. The arguments of a function are
//!   the labels from `0.0` on, and its first item has the number 1.
//! - `for` has the bounds, the step, the induction variable, the arguments and their first values.
//!   `while` has the arguments and their first values, and `do` the parameters behind it.
//! - A call is of the function 0.
//! - `COUNT*` repeats the item, the operation or the part of a list behind it. An item or an
//!   operation has it as a word of its own, and a part of a list as its beginning: `17*0.0`.
//! - In a NAME, `#` is the number of the repetition, from 0 on, and `~` a blank. `NAME^COUNT` is that
//!   name so many times in a row.
#![tactic(auto)]

mod lists;
mod reader;
mod words;

ghost use Rattle.std.specs.Prelude.{◌≡◌, None};

use anyhow::bail;
use mlir_ir::{Func, Module, ShapeFault};
use reader::Reader;
use std::alloc::Global;
use std::io::{self, BufRead, BufReader};

/// The declaration in the module of it alone.
fn in_module(alloc: Global, func: Func) -> anyhow::Result<Func>
    requires index { func.index ≡ 0 }
    requires body { func.body ≡ None }
{
    let module = Module::of_one(alloc, func)?;
    match module.funcs.into_vec().pop() {
        Some(func) => Ok(func),
        None => bail!("a module without its function"),
    }
}

/// The function that a line describes.
fn function(alloc: Global, line: &str) -> anyhow::Result<Func> {
    let words = line.split_whitespace().collect::<Vec<&str>>(alloc)?;
    let func = Reader::new(words.as_slice()).row(alloc)?;
    if func.index == 0 && func.body.is_none() {
        in_module(alloc, func)
    } else {
        Ok(func)
    }
}

fn fault_text(fault: ShapeFault) -> &'static str {
    match fault {
        ShapeFault::Use => "use",
        ShapeFault::WrongType => "wrong type",
        ShapeFault::Count => "count",
        ShapeFault::Size => "size",
    }
}

/// Prints what the check finds in the function.
fn report(rt: &impl Print, func: &Func) -> io::Result<()> {
    let Err(shape) = func.check() else {
        return println!(rt; "ok");
    };
    let text = fault_text(shape.fault);
    let (func, item, index) = (shape.at.func(), shape.at.item(), shape.at.index());
    if func == 0 {
        println!(rt; "{text} at {item}.{index}")
    } else {
        println!(rt; "{text} at {func}.{item}.{index}")
    }
}

fn main(rt: HostRuntime) -> anyhow::Result<()> {
    let alloc = rt.alloc();
    for (before, line) in BufReader::new(alloc, rt.reader())?.lines(alloc).enumerate() {
        let line = line?;
        if line.is_empty() || line.starts_with('#') {
            continue;
        }
        match function(alloc, &line) {
            Ok(func) => report(&rt, &func)?,
            Err(error) => bail!("line {}: {error}", before + 1),
        }
    }
    Ok(())
}
