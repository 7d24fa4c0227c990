ghost use Rattle.std.specs.Prelude.{◌≡◌, ◌<◌, ◌^◌, IfOk, IfSome, IsTrue, ◌↔◌};
ghost use Rattle.scev_tree.specs.Tree.{polynomial_of};
ghost use Rattle.fresh_scev.specs.Expressions.{expression_of, number_in};
ghost use Rattle.fresh_scev.specs.Rules.{have_width as width_had};

use arith_word::Width;
use scev_tree::{Expr, Tree, copy, same};
use std::alloc::{AllocError, Global};

/// Whether both expressions have that width.
pub(crate) fn have_width(w: Width, a: &Expr, b: &Expr) -> bool
    ensures { result ≡ width_had w (expression_of a.now) (expression_of b.now) }
{
    a.w == w && b.w == w
}

/// Whether width and polynomial are equal.
pub(crate) fn is_same(a: &Expr, b: &Expr) -> bool
    ensures { IsTrue result ↔ (expression_of a.now ≡ expression_of b.now) }
{
    same(a, b)
}

/// A copy.
pub(crate) fn copied(alloc: Global, e: &Expr) -> Result<Expr, AllocError>
    ensures { IfOk result (λ r. expression_of r ≡ expression_of e.now) }
{
    let r = copy(alloc, e)?;
    Ok(r)
}

/// The number that an expression is, where it is one.
#[tactic(auto, using(crate::proofs::Before::polynomial_of_ext, crate::proofs::Before::polynomial_of_num))]
pub(crate) fn number_of(e: &Expr) -> Option<u64>
    ensures number { result ≡ number_in (polynomial_of e.now.tree) }
    ensures below { IfSome result (λ v. v < 2 ^ e.now.w) }
{
    match &e.tree {
        Tree::Num(v) => Some(*v),
        Tree::Ext { .. } => None,
    }
}
