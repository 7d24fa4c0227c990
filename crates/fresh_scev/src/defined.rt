ghost use Rattle.std.specs.Prelude.{◌≡◌, ◌+◌, IfOk};
ghost use Rattle.scev_tree.specs.Polynomial.{Under};
ghost use Rattle.scev_tree.specs.Tree.{polynomial_of};
ghost use Rattle.fresh_scev.specs.Expressions.{expression_of, number, own, counter, IsCut, IsBefore};

use arith_word::{Label, Width};
use chrec_algebra::cut;
use scev_tree::{Expr, num, sym};
use std::alloc::{AllocError, Global};

/// The value that is being defined: its width and its label.
#[derive(Clone, Copy)]
pub(crate) struct Defined {
    pub w: Width,
    pub label: Label,
}

/// The symbol of the value itself.
pub(crate) fn own_symbol(alloc: Global, d: Defined) -> Result<Expr, AllocError>
    ensures own { IfOk result (λ e. expression_of e ≡ own d.w d.label.0) }
    ensures before { IfOk result (λ e. IsBefore (d.label.0 + 1) (expression_of e)) }
{
    let e = sym(alloc, d.w, d.label)?;
    Ok(e)
}

/// The expression where it is within the limits, else the symbol of the value itself.
pub(crate) fn cut_to(alloc: Global, d: Defined, e: Expr) -> Result<Expr, AllocError>
    requires { e.w ≡ d.w }
    ensures cut { IfOk result (λ r. IsCut d.w d.label.0 (polynomial_of e.tree)
        (expression_of r)) }
    ensures before { IfOk result (λ r. Under (polynomial_of e.tree) (counter (d.label.0 + 1))
        → IsBefore (d.label.0 + 1) (expression_of r)) }
{
    let r = cut(alloc, e, d.label)?;
    Ok(r)
}

/// A number.
pub(crate) fn number_expr(d: Defined, v: u64) -> Expr
    ensures number { expression_of result ≡ number d.w v }
    ensures before { IsBefore (d.label.0 + 1) (expression_of result) }
{
    num(d.w, v)
}
