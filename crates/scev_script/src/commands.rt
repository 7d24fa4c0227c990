ghost use Rattle.std.specs.Prelude.{◌≡◌, ◌++◌, IfOk, Some, None, map, length, ◌≤◌};
ghost use Rattle.std.specs.List.{position_or_len};
ghost use Rattle.scev_script.specs.Commands as commands;
ghost use Rattle.scev_script.specs.Commands.{before_slash, behind_slash};

use crate::limits::{BUDGET_LIMIT, INDEX_LIMIT, VALUE_LIMIT};
use crate::names::{loop_number, session_name, symbol, value_named};
use crate::numbers::{number_up_to, value};
use crate::script::{Command, Pin, ValueName};
use crate::words::words_in;
use arith_word::{List, Text};
use std::alloc::{AllocError, Global};

/// The `pin` command of the words behind its name.
fn pin_command(words: &[&[u8]]) -> Option<Command>
    ensures { result ≡ commands.pin_of (map (λ w. w.now) words.now) }
{
    match words {
        [k] => {
            if *k == b"latest".as_slice() {
                Some(Command::Pin(Pin::Latest))
            } else {
                let number = number_up_to(INDEX_LIMIT, k)?;
                Some(Command::Pin(Pin::At(number as u16)))
            }
        }
        _ => None,
    }
}

/// The `scev` command of the words behind its name.
#[tactic(auto, using(crate::proofs::CommandShapes::scev_other))]
fn scev_command(alloc: Global, words: &[&[u8]]) -> Result<Option<Command>, AllocError>
    ensures { IfOk result (λ o. o ≡ commands.scev_of (map (λ w. w.now) words.now)) }
{
    match words {
        [f, v] => {
            let Some(func) = symbol(alloc, f)? else {
                return Ok(None);
            };
            let Some(value) = value_named(alloc, v)? else {
                return Ok(None);
            };
            Ok(Some(Command::Scev(func, value)))
        }
        _ => Ok(None),
    }
}

/// The `at` command of a function, a value and the words behind them.
fn at_iteration(func: Text, value: ValueName, words: &[&[u8]]) -> Option<Command>
    ensures { result ≡ commands.at_iteration func value (map (λ w. w.now) words.now) }
{
    match words {
        [l, n] => {
            let number = loop_number(l)?;
            let iteration = number_up_to(VALUE_LIMIT, n)?;
            Some(Command::At(func, value, number, iteration))
        }
        _ => None,
    }
}

/// The `at` command of the words behind its name.
fn at_command(alloc: Global, words: &[&[u8]]) -> Result<Option<Command>, AllocError>
    ensures { IfOk result (λ o. o ≡ commands.at_of (map (λ w. w.now) words.now)) }
{
    match words {
        [f, v, rest @ ..] => {
            let Some(func) = symbol(alloc, f)? else {
                return Ok(None);
            };
            let Some(value) = value_named(alloc, v)? else {
                return Ok(None);
            };
            Ok(at_iteration(func, value, rest))
        }
        _ => Ok(None),
    }
}

/// The `turns` command of the words behind its name.
fn turns_command(alloc: Global, words: &[&[u8]]) -> Result<Option<Command>, AllocError>
    ensures { IfOk result (λ o. o ≡ commands.turns_of (map (λ w. w.now) words.now)) }
{
    match words {
        [f, l] => {
            let Some(func) = symbol(alloc, f)? else {
                return Ok(None);
            };
            match loop_number(l) {
                None => Ok(None),
                Some(number) => Ok(Some(Command::Turns(func, number))),
            }
        }
        _ => Ok(None),
    }
}

/// The numbers of the words, in order.
#[tactic(auto, using(crate::proofs::WordNumbers::one_more, crate::proofs::WordNumbers::no_value, crate::proofs::WordNumbers::all_read))]
fn values(alloc: Global, words: &[&[u8]]) -> Result<Option<List<u64>>, AllocError>
    ensures { IfOk result (λ o. o ≡ commands.values_of (map (λ w. w.now) words.now)) }
{
    let mut values = Vec::new(alloc);
    for word in words {
        match value(word) {
            None => return Ok(None),
            Some(n) => values.push(n)?,
        }
    }
    Ok(Some(List::from_vec(values)))
}

/// How many words are before the first `/`, all where there is none.
fn words_before_slash(words: &[&[u8]]) -> usize
    ensures value { result ≡ position_or_len commands.is_slash (map (λ w. w.now) words.now) }
    ensures within { result ≤ length words.now }
{
    for (at, word) in words.iter().enumerate() {
        if *word == b"/".as_slice() {
            return at;
        }
    }
    words.len()
}

/// The words of the arguments and those of the replies.
fn arguments_and_replies<'a, 'b>(words: &'a [&'b [u8]]) -> (&'a [&'b [u8]], &'a [&'b [u8]])
    ensures before { map (λ w. w.now) result.0.now ≡ before_slash (map (λ w. w.now) words.now) }
    ensures behind { map (λ w. w.now) result.1.now ≡ behind_slash (map (λ w. w.now) words.now) }
{
    let (arguments, behind) = words.split_at(words_before_slash(words));
    match behind.split_first() {
        None => (arguments, behind),
        Some((_, replies)) => (arguments, replies),
    }
}

/// The `run` command of the words behind its name.
fn run_command(alloc: Global, words: &[&[u8]]) -> Result<Option<Command>, AllocError>
    ensures { IfOk result (λ o. o ≡ commands.run_of (map (λ w. w.now) words.now)) }
{
    match words {
        [f, b, rest @ ..] => {
            let Some(func) = symbol(alloc, f)? else {
                return Ok(None);
            };
            let Some(budget) = number_up_to(BUDGET_LIMIT, b) else {
                return Ok(None);
            };
            let (arguments, replies) = arguments_and_replies(rest);
            let Some(arguments) = values(alloc, arguments)? else {
                return Ok(None);
            };
            let Some(replies) = values(alloc, replies)? else {
                return Ok(None);
            };
            Ok(Some(Command::Run(func, budget as u32, arguments, replies)))
        }
        _ => Ok(None),
    }
}

/// The `forget` command of the words behind its name.
fn forget_command(alloc: Global, words: &[&[u8]]) -> Result<Option<Command>, AllocError>
    ensures { IfOk result (λ o. o ≡ commands.forget_of (map (λ w. w.now) words.now)) }
{
    match words {
        [f, l] => {
            let Some(func) = symbol(alloc, f)? else {
                return Ok(None);
            };
            match loop_number(l) {
                None => Ok(None),
                Some(number) => Ok(Some(Command::Forget(func, number))),
            }
        }
        _ => Ok(None),
    }
}

/// The `hold` command of the words behind its name.
#[tactic(auto, using(crate::proofs::CommandShapes::hold_other))]
fn hold_command(alloc: Global, words: &[&[u8]]) -> Result<Option<Command>, AllocError>
    ensures { IfOk result (λ o. o ≡ commands.hold_of (map (λ w. w.now) words.now)) }
{
    match words {
        [n, f, v] => {
            let Some(name) = session_name(alloc, n)? else {
                return Ok(None);
            };
            let Some(func) = symbol(alloc, f)? else {
                return Ok(None);
            };
            let Some(value) = value_named(alloc, v)? else {
                return Ok(None);
            };
            Ok(Some(Command::Hold(name, func, value)))
        }
        _ => Ok(None),
    }
}

/// The `print` command of the words behind its name.
fn print_command(alloc: Global, words: &[&[u8]]) -> Result<Option<Command>, AllocError>
    ensures { IfOk result (λ o. o ≡ commands.print_of (map (λ w. w.now) words.now)) }
{
    match words {
        [f] => match symbol(alloc, f)? {
            None => Ok(None),
            Some(func) => Ok(Some(Command::Print(func))),
        },
        _ => Ok(None),
    }
}

/// The command with that name and the words behind it.
fn command_by(alloc: Global, name: &[u8], words: &[&[u8]]) -> Result<Option<Command>, AllocError>
    ensures { IfOk result (λ o. o ≡ commands.command_by name.now (map (λ w. w.now) words.now)) }
{
    if name == b"pin".as_slice() {
        Ok(pin_command(words))
    } else if name == b"scev".as_slice() {
        scev_command(alloc, words)
    } else if name == b"at".as_slice() {
        at_command(alloc, words)
    } else if name == b"turns".as_slice() {
        turns_command(alloc, words)
    } else if name == b"run".as_slice() {
        run_command(alloc, words)
    } else if name == b"forget".as_slice() {
        forget_command(alloc, words)
    } else if name == b"hold".as_slice() {
        hold_command(alloc, words)
    } else if name == b"print".as_slice() {
        print_command(alloc, words)
    } else {
        Ok(None)
    }
}

/// The command of the words of a line.
pub fn command_in(alloc: Global, words: &[&[u8]]) -> Result<Option<Command>, AllocError>
    ensures { IfOk result (λ o. o ≡ commands.command_in (map (λ w. w.now) words.now)) }
{
    match words.split_first() {
        None => Ok(None),
        Some((name, rest)) => command_by(alloc, name, rest),
    }
}

/// The command of a line; `None` exactly where the line is no command.
pub fn command(alloc: Global, line: &str) -> Result<Option<Command>, AllocError>
    ensures { IfOk result (λ o. o ≡ commands.command_of line.now) }
{
    let words = words_in(alloc, line.as_bytes())?;
    command_in(alloc, words.as_slice())
}
