ghost use Rattle.std.specs.Prelude.{◌≡◌, ◌+◌, ◌<◌, IfOk};
ghost use Rattle.fresh_scev.specs.Expressions.{expression_of, IsBefore};
ghost use Rattle.fresh_scev.specs.Loops.{IsVariable};

use crate::defined::{Defined, cut_to, own_symbol};
use crate::operands::have_width;
use arith_word::Label;
use phi_solve::add_recurrence;
use scev_tree::Expr;
use std::alloc::{AllocError, Global};

/// The induction variable of the loop with this counter, by its lower bound and its step.
pub(crate) fn variable_expr(
    alloc: Global,
    counter: Label,
    d: Defined,
    lower: &Expr,
    step: &Expr,
) -> Result<Expr, AllocError>
    requires order { counter.0 < d.label.0 }
    requires lower { IsBefore counter.0 (expression_of lower.now) }
    requires step { IsBefore counter.0 (expression_of step.now) }
    ensures variable { IfOk result (λ e. IsVariable counter.0 d.w d.label.0
        (expression_of lower.now) (expression_of step.now) (expression_of e)) }
    ensures before { IfOk result (λ e. IsBefore (d.label.0 + 1) (expression_of e)) }
{
    if !have_width(d.w, lower, step) {
        return Ok(own_symbol(alloc, d)?);
    }
    let e = add_recurrence(alloc, lower, step, counter)?;
    Ok(cut_to(alloc, d, e)?)
}
