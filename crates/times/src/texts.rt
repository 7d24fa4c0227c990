ghost use Rattle.std.specs.Prelude.{◌<◌, ◌^◌, length};

use mlir_lex::tokens;
use mlir_parse::parse;
use std::alloc::{AllocError, Global};
use std::rt::Clock;
use std::time::Instant;

/// A function of 461 bytes, with a loop and a branch.
const FUNCTION: &str = "func.func @f(%a: i64, %b: i64) -> i64 {
  %c0 = arith.constant 0 : index
  %c1 = arith.constant 1 : index
  %n = arith.constant 100 : index
  %s = scf.for %i = %c0 to %n step %c1 iter_args(%x = %a) -> (i64) {
    %y = arith.addi %x, %b : i64
    %z = arith.muli %y, %b overflow<nsw> : i64
    scf.yield %z : i64
  }
  %t = arith.cmpi slt, %a, %b : i64
  %u = scf.if %t -> (i64) {
    scf.yield %a : i64
  } else {
    scf.yield %b : i64
  }
  return %s : i64
}
";

const RUNS: u32 = 10;

/// The function, as often as it goes into so many bytes.
fn text_of(alloc: Global, size: usize) -> Result<String, AllocError> {
    let mut text = String::new(alloc);
    for _ in 0..size / FUNCTION.len() {
        text.push_str(FUNCTION)?;
    }
    Ok(text)
}

/// The microseconds that lexing takes, without freeing the tokens.
fn lexing<R: Print + Clock + AllocGlobal>(rt: &R, text: &str) -> anyhow::Result<u128>
    requires { length text.now < 2 ^ 32 }
{
    let mut fastest = u128::MAX;
    for _ in 0..RUNS {
        let start = Instant::now(rt)?;
        let found = tokens(rt.alloc(), text);
        fastest = fastest.min(start.elapsed(rt)?.as_micros());
        if found.is_err() {
            println!(rt; "no tokens")?;
        }
    }
    Ok(fastest)
}

/// The microseconds that lexing and parsing take, without freeing the syntax.
fn parsing<R: Print + Clock + AllocGlobal>(rt: &R, text: &str) -> anyhow::Result<u128>
    requires { length text.now < 2 ^ 32 }
{
    let mut fastest = u128::MAX;
    for _ in 0..RUNS {
        let start = Instant::now(rt)?;
        let syntax = parse(rt.alloc(), text);
        fastest = fastest.min(start.elapsed(rt)?.as_micros());
        if syntax.is_err() {
            println!(rt; "no syntax")?;
        }
    }
    Ok(fastest)
}

/// The times of a text of about so many bytes.
fn show<R: Print + Clock + AllocGlobal>(rt: &R, size: usize) -> anyhow::Result<()> {
    let text = text_of(rt.alloc(), size)?;
    if text.len() >= 0x1_0000_0000 {
        return Ok(());
    }
    let lexed = lexing(rt, text.as_str())?;
    let parsed = parsing(rt, text.as_str())?;
    println!(rt;
        "{} bytes: lexed in {lexed} us, lexed and parsed in {parsed} us",
        text.len()
    )?;
    Ok(())
}

/// Texts of 1 KiB to 4 MiB.
pub(super) fn run<R: Print + Clock + AllocGlobal>(rt: &R) -> anyhow::Result<()> {
    for size in [1 << 10, 1 << 20, 2 << 20, 4 << 20] {
        show(rt, size)?;
    }
    Ok(())
}
