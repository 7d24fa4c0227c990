//! Prints what passes make of the functions of a module. Standard input has the module, as text, and
//! behind it a line for each pass, which names the function and the number of a loop of it, as the
//! commands of scripts do:
//!
//! ```text
//! == peel @f #0
//! == unroll @f #1 4
//! == unroll-full @f #0
//! == exit-values @f #0
//! == reduce @f #0
//! ```
//!
//! Each pass is done to the module as it was read. The program prints the line and then the child of
//! the function, or `refused: ` and why there is none. It stops at a line that names no pass, no
//! function or no loop, and where the text is no module.
#![tactic(auto)]

mod line;
mod pass;

ghost use Rattle.std.specs.List.{All};
ghost use Rattle.std.specs.Prelude.{IfOk};
ghost use Rattle.mlir_ir.specs.Check.{IsWellFormed};

use anyhow::bail;
use line::{Line, is_line};
use mlir_ir::Module;
use pass::print_pass;
use scev_input::{Refused, read};
use std::alloc::Global;
use std::io::{self, BufRead, BufReader};

/// The most bytes of a module that are read.
const MAX_MODULE: usize = 1 << 26;

/// The module of a text.
fn module_of(alloc: Global, text: &str) -> anyhow::Result<Module>
    ensures { IfOk result (λ m. All IsWellFormed m.funcs) }
{
    if text.len() > MAX_MODULE {
        bail!("the module is too long");
    }
    match read(alloc, text.as_bytes()) {
        Ok(input) => Ok(input.module),
        Err(Refused::NoMemory) => bail!("no memory"),
        Err(Refused::Fault(fault)) => bail!("bad input: {} at {}", fault.kind, fault.at),
    }
}

/// Does the pass that a line names to the module.
fn run_line(rt: &impl Print, alloc: Global, m: &Module, text: &str) -> anyhow::Result<()>
    requires { All IsWellFormed m.now.funcs }
{
    let Some(line) = Line::read(text) else {
        bail!("no pass: {text}");
    };
    println!(rt; "{text}")?;
    print_pass(rt, alloc, m, line)
}

fn main(rt: HostRuntime) -> anyhow::Result<()> {
    let alloc = rt.alloc();
    let mut text = String::new(alloc);
    let mut lines = Vec::new(alloc);
    for line in BufReader::new(alloc, rt.reader())?.lines(alloc) {
        let line = line?;
        if is_line(&line) {
            lines.push(line)?;
        } else if lines.is_empty() {
            text.push_str(&line)?;
            text.push('\n')?;
        } else {
            bail!("a line behind the first pass that is none: {line}");
        }
    }
    let m = module_of(alloc, &text)?;
    for line in lines.as_slice() {
        run_line(&rt, alloc, &m, line)?;
    }
    Ok(())
}
