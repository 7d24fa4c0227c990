ghost use Rattle.std.specs.Prelude.{◌<◌, ◌^◌, length};

use mlir_parse::parse;
use mlir_scope::resolve;
use std::alloc::{AllocError, Global};
use std::rt::Clock;
use std::time::Instant;

/// The loops of a function. A function has 214 operations, so 256 functions keep the limits.
const LOOPS: u32 = 70;

/// How often each size is read.
const RUNS: u32 = 10;

/// A function with loops in turn, each of which begins with the value that the one before it gave.
fn push_function(text: &mut String, number: u32) -> anyhow::Result<()> {
    writeln!(text, "func.func @f{number}(%a: i32) -> i32 {{")?;
    writeln!(text, "  %zero = arith.constant 0 : i32")?;
    writeln!(text, "  %one = arith.constant 1 : i32")?;
    writeln!(text, "  %factor = arith.constant {number} : i32")?;
    writeln!(text, "  %result0 = arith.addi %a, %one : i32")?;
    for n in 0..LOOPS {
        let next = n.saturating_add(1);
        writeln!(
            text,
            "  %result{next} = scf.for %index{n} = %zero to %factor step %one iter_args(%carried{n} = %result{n}) -> (i32) : i32 {{"
        )?;
        writeln!(
            text,
            "    %product{n} = arith.muli %index{n}, %factor : i32"
        )?;
        writeln!(
            text,
            "    %sum{n} = arith.addi %carried{n}, %product{n} : i32"
        )?;
        writeln!(text, "    scf.yield %sum{n} : i32")?;
        writeln!(text, "  }}")?;
    }
    writeln!(text, "  return %result{LOOPS} : i32")?;
    writeln!(text, "}}")?;
    Ok(())
}

/// A module of so many functions.
fn module_of(alloc: Global, functions: u32) -> anyhow::Result<String> {
    let mut text = String::new(alloc);
    for number in 0..functions {
        push_function(&mut text, number)?;
    }
    Ok(text)
}

/// The microseconds that lexing and parsing take, and those with resolving, without freeing what
/// is made.
fn reading<R: Print + Clock + AllocGlobal>(rt: &R, text: &str) -> anyhow::Result<(u128, u128)>
    requires { length text.now < 2 ^ 32 }
{
    let mut parsed = u128::MAX;
    let mut resolved = u128::MAX;
    for _ in 0..RUNS {
        let start = Instant::now(rt)?;
        let syntax = parse(rt.alloc(), text);
        parsed = parsed.min(start.elapsed(rt)?.as_micros());
        match syntax {
            Err(_) => println!(rt; "no syntax")?,
            Ok(syntax) => {
                let module = resolve(rt.alloc(), &syntax);
                resolved = resolved.min(start.elapsed(rt)?.as_micros());
                if module.is_err() {
                    println!(rt; "no module")?;
                }
            }
        }
    }
    Ok((parsed, resolved))
}

/// The times of a module of so many functions.
fn show<R: Print + Clock + AllocGlobal>(rt: &R, functions: u32) -> anyhow::Result<()> {
    let text = module_of(rt.alloc(), functions)?;
    if text.len() >= 0x1_0000_0000 {
        return Ok(());
    }
    let (parsed, resolved) = reading(rt, text.as_str())?;
    println!(rt;
        "{} bytes: lexed and parsed in {parsed} us, with resolving in {resolved} us",
        text.len()
    )?;
    Ok(())
}

/// Modules of about 1, 2 and 4 MiB.
pub(super) fn run<R: Print + Clock + AllocGlobal>(rt: &R) -> anyhow::Result<()> {
    for functions in [64, 128, 256] {
        show(rt, functions)?;
    }
    Ok(())
}
