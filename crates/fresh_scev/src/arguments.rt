ghost use Rattle.std.specs.Prelude.{◌≡◌, ◌+◌, ◌<◌, IfOk, IfSome, IsTrue, ◌↔◌};
ghost use Rattle.fresh_scev.specs.Expressions.{expression_of, own, IsBefore};
ghost use Rattle.fresh_scev.specs.Loops.{IsSolution};

use crate::defined::{Defined, cut_to, own_symbol};
use crate::operands::{have_width, is_same};
use arith_word::Label;
use phi_solve::{Solved, recur};
use scev_tree::Expr;
use std::alloc::{AllocError, Global};

/// What a round makes of an argument: `Some` exactly where it is still its symbol and is yielded as
/// itself plus a step.
pub(crate) fn next_argument(
    alloc: Global,
    counter: Label,
    d: Defined,
    old: &Expr,
    init: &Expr,
    yielded: &Expr,
) -> Result<Option<Expr>, AllocError>
    requires order { counter.0 < d.label.0 }
    requires init { IsBefore counter.0 (expression_of init.now) }
    ensures solution { IfOk result (λ o. IsSolution counter.0 d.w d.label.0
        (expression_of old.now) (expression_of init.now) (expression_of yielded.now) o) }
    ensures before { IfOk result (λ o. IfSome o (λ e. IsBefore (d.label.0 + 1) (expression_of e))) }
{
    let own = own_symbol(alloc, d)?;
    if !is_same(old, &own) || !have_width(d.w, init, yielded) {
        return Ok(None);
    }
    match recur(alloc, yielded, init, d.label, counter)? {
        Solved::As(e) => Ok(Some(cut_to(alloc, d, e)?)),
        Solved::Not => Ok(None),
    }
}
