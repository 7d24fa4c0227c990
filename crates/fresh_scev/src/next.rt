ghost use Rattle.std.specs.Prelude.{◌≡◌, ◌+◌, ◌<◌, ◌^◌, length, map, IfOk, false, None};
ghost use Rattle.fresh_scev.specs.Expressions.{expression_of, IsBefore};
ghost use Rattle.fresh_scev.specs.Loops.{IsNext, IsSolution};
ghost use Rattle.fresh_scev.specs.NextArguments.{AddsNext, AreBefore, AreNextExprs};
ghost use Rattle.fresh_scev.specs.Still.{AreStill};
ghost use Rattle.fresh_scev.specs.Table.{facts_of, AreKnown};
ghost use Rattle.fresh_scev.specs.UsesBelow.{AreBelow};

use crate::arguments::next_argument;
use crate::defined::{Defined, own_symbol};
use crate::lookup::zero;
use crate::operands::copied;
use crate::table::Table;
use arith_word::Label;
use mlir_ir::IrType;
use scev_tree::Expr;
use std::alloc::AllocError;

/// The counter of a loop, and the label of an argument of it.
#[derive(Clone, Copy)]
pub(crate) struct Header {
    pub counter: Label,
    pub first: Label,
}

/// What a round makes of the arguments of a loop, and whether it solves one of them.
#[derive(Drop)]
pub(crate) struct Next {
    pub exprs: Vec<Expr>,
    pub changed: bool,
}

/// What a round makes of one argument.
#[derive(Drop)]
struct NextOne {
    expr: Expr,
    changed: bool,
}

#[tactic(auto, using(crate::proofs::OperandBounds::operand, crate::proofs::AddedArguments::stays_here))]
fn next_one(
    t: &Table,
    counter: Label,
    d: Defined,
    init: Label,
    end: Label,
) -> Result<NextOne, AllocError>
    requires known { AreKnown (facts_of t.now) }
    requires order { counter.0 < d.label.0 }
    requires init { init.0 < counter.0 }
    ensures next { IfOk result (λ r. IsNext counter.0 d.w d.label.0
        ((facts_of t.now).expr d.label.0) ((facts_of t.now).expr init.0)
        ((facts_of t.now).expr end.0) (expression_of r.expr)) }
    ensures before { IfOk result (λ r. IsBefore (d.label.0 + 1) (expression_of r.expr)) }
    ensures still { IfOk result (λ r. r.changed ≡ false → IsSolution counter.0 d.w d.label.0
        ((facts_of t.now).expr d.label.0) ((facts_of t.now).expr init.0)
        ((facts_of t.now).expr end.0) None) }
{
    let zero = zero();
    let old = t.expr(d.label, &zero);
    let (from, to) = (t.expr(init, &zero), t.expr(end, &zero));
    match next_argument(t.alloc, counter, d, old, from, to)? {
        Some(expr) => Ok(NextOne {
            expr,
            changed: true,
        }),
        None => Ok(NextOne {
            expr: copied(t.alloc, old)?,
            changed: false,
        }),
    }
}

// Adds what a round makes of the arguments from one on; whether it solves one of them.
#[tactic(auto, using(crate::proofs::AddedArguments::none_added, crate::proofs::AddedArguments::first_added))]
fn add_next(
    t: &Table,
    h: Header,
    types: &[IrType],
    inits: &[Label],
    ends: &[Label],
    out: &mut Vec<Expr>,
) -> Result<bool, AllocError>
    requires known { AreKnown (facts_of t.now) }
    requires order { h.counter.0 < h.first.0 }
    requires labels { h.first.0 + length types.now < 2 ^ 32 }
    requires inits { AreBelow inits.now h.counter.0 }
    ensures { IfOk result (λ changed. AddsNext h.counter.0 (facts_of t.now) h.first.0 types.now
        inits.now ends.now out.old.items out.new.items changed) }
{
    let Some((ty, rest)) = types.split_first() else {
        return Ok(false);
    };
    let d = Defined {
        w: ty.width(),
        label: h.first,
    };
    let later = Header {
        counter: h.counter,
        first: Label(h.first.0 + 1),
    };
    match (inits.split_first(), ends.split_first()) {
        (Some((init, inits)), Some((end, ends))) => {
            let NextOne { expr, changed } = next_one(t, h.counter, d, *init, *end)?;
            out.push(expr)?;
            let others = add_next(t, later, rest, inits, ends, out)?;
            Ok(changed || others)
        }
        _ => {
            out.push(own_symbol(t.alloc, d)?)?;
            add_next(t, later, rest, inits, ends, out)
        }
    }
}

/// What a round makes of the arguments of a loop, by their types, their initial values and those
/// yielded.
#[tactic(auto, using(crate::proofs::AddedArguments::added_next, crate::proofs::AddedArguments::added_before, crate::proofs::AddedArguments::added_still, crate::proofs::AddedArguments::added_length))]
pub(crate) fn next_arguments(
    t: &Table,
    h: Header,
    types: &[IrType],
    inits: &[Label],
    ends: &[Label],
) -> Result<Next, AllocError>
    requires known { AreKnown (facts_of t.now) }
    requires order { h.counter.0 < h.first.0 }
    requires labels { h.first.0 + length types.now < 2 ^ 32 }
    requires inits { AreBelow inits.now h.counter.0 }
    ensures next { IfOk result (λ n. AreNextExprs h.counter.0 (facts_of t.now) h.first.0 types.now
        inits.now ends.now (map expression_of n.exprs.items)) }
    ensures before { IfOk result (λ n. AreBefore h.first.0 (map expression_of n.exprs.items)) }
    ensures count { IfOk result (λ n. length n.exprs.items ≡ length types.now) }
    ensures still { IfOk result (λ n. n.changed ≡ false → AreStill h.counter.0 (facts_of t.now)
        h.first.0 types.now inits.now ends.now) }
{
    let mut exprs = Vec::new(t.alloc);
    let changed = add_next(t, h, types, inits, ends, &mut exprs)?;
    Ok(Next { exprs, changed })
}
