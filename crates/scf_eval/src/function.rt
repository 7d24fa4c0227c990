ghost use Rattle.std.specs.Prelude.{◌≡◌, ◌+◌, ◌<◌, ◌≤◌, ◌^◌, ◌∷◌, length, map, IfOk};
ghost use Rattle.mlir_ir.specs.Check.{IsWellFormed};
ghost use Rattle.mlir_ir.specs.Rules.{arg_types};
ghost use Rattle.mlir_ir.specs.Runs as runs;
ghost use Rattle.mlir_ir.specs.View.{view_items};
ghost use Rattle.scf_eval.specs.Layout.{IsRunnable, begins_from, items_labels};
ghost use Rattle.scf_eval.specs.Machine.{seen};
ghost use Rattle.scf_eval.specs.States.{slots, numbers, event_of, plain_outcome, items_steps, Follows, Tells};

use crate::input::Input;
use crate::labels::past_ops;
use crate::machine::{Halt, Machine};
use crate::memory::{give, no_word, words_of};
use crate::outcome::{Outcome, Run};
use crate::walk::run_ops;
use arith_word::{Label, List, Word};
use mlir_ir::{Arg, Body, Func, IrType, Item};
use std::alloc::{AllocError, Global};

/// The types of arguments.
fn types_of(alloc: Global, args: &[Arg]) -> Result<Vec<IrType>, AllocError>
    ensures { IfOk result (λ types. types.items ≡ arg_types args.now) }
{
    let mut types = Vec::with_capacity(alloc, args.len())?;
    for arg in args {
        types.push(arg.ty)?;
    }
    Ok(types)
}

/// The slot past the labels of items.
fn past_items(items: &[Item], pos: usize) -> usize
    requires { pos + items_labels (view_items items.now) < 2 ^ 32 }
    ensures { result ≡ pos + items_labels (view_items items.now) }
{
    let mut at = pos;
    for item in items {
        at = past_ops(item.ops.as_slice(), at);
    }
    at
}

/// The slots of the first argument and of the first label of each item.
fn begins_of(alloc: Global, args: usize, items: &[Item]) -> Result<Vec<u32>, AllocError>
    requires { args + items_labels (view_items items.now) < 2 ^ 32 }
    ensures { IfOk result (λ begins. begins.items ≡ 0 ∷ begins_from args (view_items items.now)) }
{
    let mut begins = Vec::new(alloc);
    begins.push(0)?;
    let mut at = args;
    for item in items {
        begins.push(at as u32)?;
        at = past_ops(item.ops.as_slice(), at);
    }
    Ok(begins)
}

/// So many words that nothing has been written to.
fn blank(alloc: Global, n: usize) -> Result<Vec<Word>, AllocError>
    ensures { IfOk result (λ values. length values.items ≡ n) }
{
    let mut values = Vec::new(alloc);
    values.resize(n, no_word())?;
    Ok(values)
}

/// Runs items, of which the first has its labels' slots from `pos` on.
fn run_items(input: &Input, m: &mut Machine, pos: usize, items: &[Item]) -> Result<(), Halt>
    requires { pos + items_labels (view_items items.now) < 2 ^ 32 }
    ensures { Follows result input.now m.old m.new (items_steps input.now pos items.now) }
{
    let mut at = pos;
    for item in items {
        let ops = item.ops.as_slice();
        run_ops(input, m, at, ops)?;
        at = past_ops(ops, at);
    }
    Ok(())
}

/// How a run ends whose operations have ended so.
fn outcome_of(
    input: &Input,
    values: &Vec<Word>,
    flow: Result<(), Halt>,
    ret: &[Label],
) -> Result<Outcome, AllocError>
    ensures { IfOk result
        (λ outcome. Tells flow (seen (slots input.now) (numbers values.now.items) ret.now)
        (plain_outcome outcome)) }
{
    match flow {
        Ok(()) => Ok(Outcome::Ended(words_of(input, values, ret)?)),
        Err(Halt::Trapped) => Ok(Outcome::Trapped),
        Err(Halt::Starved) => Ok(Outcome::Starved),
        Err(Halt::Cut) => Ok(Outcome::Cut),
        Err(Halt::Memory) => Err(AllocError),
    }
}

/// The run of a function with that body.
fn run_body(
    alloc: Global,
    f: &Func,
    body: &Body,
    args: &[u64],
    replies: &[u64],
    budget: u64,
) -> Result<Run, AllocError>
    requires { IsRunnable f.now body.now args.now }
    ensures outcome { IfOk result
        (λ r. plain_outcome r.outcome
        ≡ (runs.run_body f.now body.now args.now replies.now budget).outcome) }
    ensures trace { IfOk result
        (λ r. map event_of r.trace
        ≡ (runs.run_body f.now body.now args.now replies.now budget).trace) }
{
    let items = body.items.as_slice();
    let params = f.args.as_slice();
    let types = types_of(alloc, params)?;
    let begins = begins_of(alloc, params.len(), items)?;
    let values = blank(alloc, past_items(items, params.len()))?;
    let input = Input {
        begins: begins.as_slice(),
        budget,
        alloc,
    };
    let mut m = Machine {
        values,
        spent: 0,
        replies,
        trace: Vec::new(alloc),
    };
    give(&mut m.values, 0, types.as_slice(), args);
    let flow = run_items(&input, &mut m, params.len(), items);
    let outcome = outcome_of(&input, &m.values, flow, body.ret.as_slice())?;
    Ok(Run {
        outcome,
        trace: List::from_vec(m.trace),
    })
}

/// The run of a function on arguments, on the replies of its calls, and on a budget, of which each
/// iteration of a loop and each call takes one unit. Arguments and replies are taken modulo their
/// types. A declaration does nothing. An error comes only where memory runs out.
pub fn run(
    alloc: Global,
    f: &Func,
    args: &[u64],
    replies: &[u64],
    budget: u64,
) -> Result<Run, AllocError>
    requires well_formed { IsWellFormed f.now }
    requires arguments { length args.now ≡ length f.now.args }
    ensures outcome { IfOk result
        (λ r. plain_outcome r.outcome ≡ (runs.run_of f.now args.now replies.now budget).outcome) }
    ensures trace { IfOk result
        (λ r. map event_of r.trace ≡ (runs.run_of f.now args.now replies.now budget).trace) }
{
    match &f.body {
        Some(body) => Ok(run_body(alloc, f, body, args, replies, budget)?),
        None => Ok(Run {
            outcome: Outcome::Ended(List::from_vec(Vec::new(alloc))),
            trace: List::from_vec(Vec::new(alloc)),
        }),
    }
}
