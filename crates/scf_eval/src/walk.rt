ghost use Rattle.std.specs.Prelude.{◌≡◌, ◌+◌, ◌≤◌, ◌<◌, ◌^◌, IfOk};
ghost use Rattle.mlir_ir.specs.Operations.{labels_of, inner_labels};
ghost use Rattle.mlir_ir.specs.View as plain;
ghost use Rattle.mlir_ir.specs.View.{view_kind, view_ops, view_for, view_while};
ghost use Rattle.scf_eval.specs.States.{Follows, for_steps, kind_steps, ops_steps, region_steps, while_steps};

use crate::input::Input;
use crate::labels::past_region;
use crate::machine::{Halt, Machine, begin_round, begin_turn, call, hand, yields};
use crate::memory::{read, word};
use crate::parts::{ends_of, rows_of};
use crate::simple::{is_less, result_width, work};
use arith_word::add;
use mlir_ir::{ForParts, IrType, Kind, Op, Region, WhileParts};

/// Runs operations, of which the first has its labels' slots from `pos` on.
#[cycle(walk)]
#[tactic(auto, using(crate::proofs::LoopLabels::for_labels, crate::proofs::LoopLabels::while_labels))]
pub(crate) fn run_ops(input: &Input, m: &mut Machine, pos: usize, ops: &[Op]) -> Result<(), Halt>
    requires { pos + labels_of (view_ops ops.now) < 2 ^ 32 }
    ensures ends { Follows result input.now m.old m.new (ops_steps input.now pos ops.now) }
    ensures spends { m.old.spent ≤ m.new.spent }
{
    let mut at = pos;
    for op in ops {
        let results = op.results.as_slice();
        at = run_kind(input, m, at, results, &op.kind)? + results.len();
    }
    Ok(())
}

/// Runs a region, and writes what it gives on to the slots from `res` on.
#[cycle(walk)]
#[tactic(auto, using(crate::proofs::LoopLabels::for_labels, crate::proofs::LoopLabels::while_labels))]
fn run_region(
    input: &Input,
    m: &mut Machine,
    pos: usize,
    res: usize,
    region: &Region,
) -> Result<(), Halt>
    requires room { pos + labels_of (plain.rows_of region.now) < 2 ^ 32 }
    requires results { res < 2 ^ 32 }
    ensures ends { Follows result input.now m.old m.new
        (region_steps input.now pos res region.now) }
    ensures spends { m.old.spent ≤ m.new.spent }
{
    run_ops(input, m, pos, rows_of(region))?;
    hand(input, m, res, ends_of(region));
    Ok(())
}

/// Runs an operation with these results, and gives the slot of the first one.
#[cycle(walk)]
#[tactic(auto, using(crate::proofs::LoopLabels::for_labels, crate::proofs::LoopLabels::while_labels))]
fn run_kind(
    input: &Input,
    m: &mut Machine,
    pos: usize,
    results: &[IrType],
    kind: &Kind,
) -> Result<usize, Halt>
    requires { pos + inner_labels (view_kind kind.now) < 2 ^ 32 }
    ensures moved { IfOk result (λ res. res ≡ pos + inner_labels (view_kind kind.now)) }
    ensures ends { Follows result input.now m.old m.new
        (kind_steps input.now pos results.now kind.now) }
    ensures spends { m.old.spent ≤ m.new.spent }
{
    match kind {
        Kind::If(c, first, None) => {
            let res = past_region(first, pos);
            if read(input, &m.values, *c).v != 0 {
                run_region(input, m, pos, res, first)?;
            }
            Ok(res)
        }
        Kind::If(c, first, Some(other)) => {
            let behind = past_region(first, pos);
            let res = past_region(other, behind);
            if read(input, &m.values, *c).v == 0 {
                run_region(input, m, behind, res, other)?;
            } else {
                run_region(input, m, pos, res, first)?;
            }
            Ok(res)
        }
        Kind::For(parts) => run_for(input, m, pos, parts),
        Kind::While(parts) => run_while(input, m, pos, parts),
        Kind::Call(callee, passed) => {
            call(input, m, pos, results, *callee, passed.as_slice())?;
            Ok(pos)
        }
        _ => {
            let number = work(input, &m.values, result_width(results), kind);
            yields(input, m, pos, results, number)?;
            Ok(pos)
        }
    }
}

/// Runs an `scf.for`, and gives the slot of its first result. Its results' slots keep the arguments of
/// the next iteration.
#[cycle(walk)]
#[tactic(auto, using(crate::proofs::LoopLabels::for_labels, crate::proofs::LoopLabels::while_labels))]
fn run_for(input: &Input, m: &mut Machine, pos: usize, parts: &ForParts) -> Result<usize, Halt>
    requires { pos + inner_labels (view_for parts.now) < 2 ^ 32 }
    ensures moved { IfOk result (λ res. res ≡ pos + inner_labels (view_for parts.now)) }
    ensures ends { Follows result input.now m.old m.new (for_steps input.now pos parts.now) }
    ensures spends { m.old.spent ≤ m.new.spent }
{
    let args = parts.args.as_slice();
    let in_body = pos + 2 + args.len();
    let res = past_region(&parts.body, in_body);
    let lower = read(input, &m.values, parts.lower);
    let upper = read(input, &m.values, parts.upper).v;
    let step = read(input, &m.values, parts.step).v;
    let w = lower.w;
    let mut v = lower.v;
    hand(input, m, res, parts.inits.as_slice());
    'turns: while is_less(w, v, upper) {
        begin_turn(input, m, pos, res, args, word(w, v))?;
        run_region(input, m, in_body, res, &parts.body)?;
        v = add(w, v, step);
    }
    Ok(res)
}

/// Runs an `scf.while`, and gives the slot of its first result.
#[cycle(walk)]
#[tactic(auto, using(crate::proofs::LoopLabels::for_labels, crate::proofs::LoopLabels::while_labels))]
fn run_while(input: &Input, m: &mut Machine, pos: usize, parts: &WhileParts) -> Result<usize, Halt>
    requires { pos + inner_labels (view_while parts.now) < 2 ^ 32 }
    ensures moved { IfOk result (λ res. res ≡ pos + inner_labels (view_while parts.now)) }
    ensures ends { Follows result input.now m.old m.new (while_steps input.now pos parts.now) }
    ensures spends { m.old.spent ≤ m.new.spent }
{
    let in_before = pos + 1 + parts.args.as_slice().len();
    let params = past_region(&parts.before, in_before);
    let in_after = params + parts.after_args.as_slice().len();
    let res = past_region(&parts.after, in_after);
    hand(input, m, pos + 1, parts.inits.as_slice());
    'rounds: loop {
        run_ops(input, m, in_before, rows_of(&parts.before))?;
        if read(input, &m.values, parts.cond).v == 0 {
            hand(input, m, res, ends_of(&parts.before));
            return Ok(res);
        }
        begin_round(input, m, params, ends_of(&parts.before))?;
        run_region(input, m, in_after, pos + 1, &parts.after)?;
    }
}
