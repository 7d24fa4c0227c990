ghost use Rattle.std.specs.Prelude.{◌≡◌, ◌+◌, ◌≤◌, ◌<◌, ◌^◌};
ghost use Rattle.scf_eval.specs.Machine as spec;
ghost use Rattle.scf_eval.specs.States.{slots, held, state_of, Begins, Follows, Takes, call_steps, turn_values};

use crate::input::Input;
use crate::memory::{copy, enter, give, words_of, write};
use crate::outcome::Event;
use arith_word::{Label, Word};
use mlir_ir::{Arg, IrType};

/// Why a run stops before its end.
#[derive(Clone, Copy, Debug)]
pub(crate) enum Halt {
    Trapped,
    Starved,
    Cut,
    Memory,
}

/// What changes during a run: a word for each slot, how much of the budget is spent, the replies that
/// are left, and the calls so far.
#[derive(Drop)]
pub(crate) struct Machine<'a> {
    pub values: Vec<Word>,
    pub spent: u64,
    pub replies: &'a [u64],
    pub trace: Vec<Event>,
}

/// Takes one unit of the budget.
pub(crate) fn spend(input: &Input, spent: &mut u64) -> Result<(), Halt>
    ensures { Takes result input.now.budget spent.old spent.new }
{
    if *spent >= input.budget {
        return Err(Halt::Cut);
    }
    *spent += 1;
    Ok(())
}

/// An operation's result, or a trap.
pub(crate) fn yields(
    input: &Input,
    m: &mut Machine,
    pos: usize,
    results: &[IrType],
    number: Option<u64>,
) -> Result<(), Halt>
    requires { pos < 2 ^ 32 }
    ensures ends { Follows result input.now m.old m.new
        (λ values s. spec.yields pos results.now values s number) }
    ensures spends { m.old.spent ≤ m.new.spent }
{
    match number {
        Some(v) => {
            give(&mut m.values, pos, results, &[v]);
            Ok(())
        }
        None => Err(Halt::Trapped),
    }
}

/// The results of a call are the next replies, one for each.
fn take_replies(input: &Input, m: &mut Machine, pos: usize, results: &[IrType]) -> Result<(), Halt>
    requires { pos < 2 ^ 32 }
    ensures ends { Follows result input.now m.old m.new (spec.replied pos results.now) }
    ensures spends { m.old.spent ≤ m.new.spent }
{
    if m.replies.len() < results.len() {
        return Err(Halt::Starved);
    }
    give(&mut m.values, pos, results, m.replies);
    m.replies = m.replies.split_at(results.len()).1;
    Ok(())
}

/// A call takes a unit of the budget, is recorded, and then takes its replies.
pub(crate) fn call(
    input: &Input,
    m: &mut Machine,
    pos: usize,
    results: &[IrType],
    callee: u16,
    passed: &[Label],
) -> Result<(), Halt>
    requires { pos < 2 ^ 32 }
    ensures ends { Follows result input.now m.old m.new
        (call_steps input.now pos callee passed.now results.now) }
    ensures spends { m.old.spent ≤ m.new.spent }
{
    spend(input, &mut m.spent)?;
    let Ok(args) = words_of(input, &m.values, passed) else {
        return Err(Halt::Memory);
    };
    match m.trace.push(Event { callee, args }) {
        Ok(()) => take_replies(input, m, pos, results),
        Err(_) => Err(Halt::Memory),
    }
}

/// Writes the words of labels to the slots from `pos` on.
pub(crate) fn hand(input: &Input, m: &mut Machine, pos: usize, labels: &[Label])
    requires { pos < 2 ^ 32 }
    ensures values { held m.new ≡ spec.copied (slots input.now) (held m.old) pos labels.now }
    ensures state { state_of input.now m.new ≡ state_of input.now m.old }
    ensures spent { m.new.spent ≡ m.old.spent }
{
    copy(input, &mut m.values, pos, labels);
}

/// Begins an iteration of an `scf.for` at `pos` with its results from `res` on: takes a unit of the
/// budget, and gives the induction variable and the arguments their words.
pub(crate) fn begin_turn(
    input: &Input,
    m: &mut Machine,
    pos: usize,
    res: usize,
    args: &[Arg],
    v: Word,
) -> Result<(), Halt>
    requires slot { pos + 2 < 2 ^ 32 }
    requires results { res < 2 ^ 32 }
    ensures { Begins result input.now m.old m.new (turn_values m.old pos res args.now v) }
{
    spend(input, &mut m.spent)?;
    write(&mut m.values, pos + 1, v);
    enter(&mut m.values, res, pos + 2, args);
    Ok(())
}

/// Begins the after region of an `scf.while`: takes a unit of the budget, and passes the words of
/// labels on to its parameters.
pub(crate) fn begin_round(
    input: &Input,
    m: &mut Machine,
    params: usize,
    passed: &[Label],
) -> Result<(), Halt>
    requires { params < 2 ^ 32 }
    ensures { Begins result input.now m.old m.new
        (spec.copied (slots input.now) (held m.old) params passed.now) }
{
    spend(input, &mut m.spent)?;
    copy(input, &mut m.values, params, passed);
    Ok(())
}
