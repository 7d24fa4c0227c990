//! Lines that name a pass, a function and a loop.
ghost use Rattle.std.specs.Prelude.{◌≤◌};
ghost use Rattle.pass_unroll.specs.Limits.{factor_limit};

use pass_chain::{MAX_FACTOR, MIN_FACTOR};

/// How a line begins that names a pass.
const MARK: &str = "== ";

/// A factor of unrolling.
#[derive(Clone, Copy, Debug)]
pub struct Factor {
    pub times: u8,
    ghost least: { 2 ≤ times },
    ghost most: { times ≤ factor_limit },
}

/// A pass that a line names.
#[derive(Clone, Copy, Debug)]
pub enum Pass {
    Peel,
    Unroll(Factor),
    UnrollFull,
    ExitValues,
    Reduce,
}

/// What a line names: a pass, a function by its name, and a loop by its number in it.
#[derive(Clone, Copy, Debug)]
pub struct Line<'a> {
    pub pass: Pass,
    pub func: &'a str,
    pub number: usize,
}

/// Whether a line names a pass, rather than a part of the module.
pub fn is_line(line: &str) -> bool {
    line.starts_with(MARK)
}

/// The factor that a word gives.
fn read_factor(word: Option<&str>) -> Option<Factor> {
    let times = word?.parse::<u8>().ok()?;
    if times < MIN_FACTOR || times > MAX_FACTOR {
        return None;
    }
    Some(Factor { times })
}

/// The pass with that name.
fn read_pass(name: &str, param: Option<&str>) -> Option<Pass> {
    match name {
        "peel" => Some(Pass::Peel),
        "unroll" => Some(Pass::Unroll(read_factor(param)?)),
        "unroll-full" => Some(Pass::UnrollFull),
        "exit-values" => Some(Pass::ExitValues),
        "reduce" => Some(Pass::Reduce),
        _ => None,
    }
}

impl<'a> Line<'a> {
    /// What a line names; `None` where it is none of that form.
    pub fn read(line: &'a str) -> Option<Line<'a>> {
        let mut words = line.strip_prefix(MARK)?.split_whitespace();
        let name = words.next()?;
        let func = words.next()?.strip_prefix('@')?;
        let number = words.next()?.strip_prefix('#')?.parse::<usize>().ok()?;
        Some(Line {
            pass: read_pass(name, words.next())?,
            func,
            number,
        })
    }
}
