ghost use Rattle.std.specs.Prelude.{◌≡◌, true, false, ◌≤◌, ◌%◌, ◌^◌, IfOk};
ghost use Rattle.chrec_algebra.specs.Entries.{number_in};
ghost use Rattle.chrec_algebra.specs.Limits.{IsWithin};
ghost use Rattle.chrec_algebra.specs.Place.{IsAt};
ghost use Rattle.chrec_algebra.specs.Product.{IsProduct};
ghost use Rattle.chrec_algebra.specs.Sum.{IsSum, IsDifference, IsNegated, IsTruncated};
ghost use Rattle.scev_tree.specs.Polynomial.{variable, variable_of};
ghost use Rattle.scev_tree.specs.Tree.{polynomial_of};
ghost use Rattle.scev_tree.specs.Value.{numbers, value as value_of};

use crate::limits::is_within;
use crate::product::mul_trees;
use crate::replace::at_tree;
use crate::sum::{add_multiple, add_trees};
use crate::valued::tree_value;
use arith_word::{Label, Width};
use scev_tree::{Expr, scale_tree, sym};
use std::alloc::{AllocError, Global};

/// The sum of two expressions of one width.
pub fn add(alloc: Global, a: &Expr, b: &Expr) -> Result<Expr, AllocError>
    requires { a.now.w ≡ b.now.w }
    ensures width { IfOk result (λ r. r.w ≡ a.now.w) }
    ensures sum { IfOk result (λ r. IsSum (2 ^ a.now.w) (polynomial_of r.tree)
        (polynomial_of a.now.tree) (polynomial_of b.now.tree)) }
{
    let tree = add_trees(alloc, a.w, &a.tree, &b.tree)?;
    Ok(Expr { w: a.w, tree })
}

/// The difference of two expressions of one width.
pub fn sub(alloc: Global, a: &Expr, b: &Expr) -> Result<Expr, AllocError>
    requires { a.now.w ≡ b.now.w }
    ensures width { IfOk result (λ r. r.w ≡ a.now.w) }
    ensures difference { IfOk result (λ r. IsDifference (2 ^ a.now.w) (polynomial_of r.tree)
        (polynomial_of a.now.tree) (polynomial_of b.now.tree)) }
{
    let tree = add_multiple(alloc, a.w, &a.tree, a.w.mask(), &b.tree)?;
    Ok(Expr { w: a.w, tree })
}

/// The product of two expressions of one width, both within the limits; the product may not be.
pub fn mul(alloc: Global, a: &Expr, b: &Expr) -> Result<Expr, AllocError>
    requires widths { a.now.w ≡ b.now.w }
    requires left { IsWithin (polynomial_of a.now.tree) }
    requires right { IsWithin (polynomial_of b.now.tree) }
    ensures width { IfOk result (λ r. r.w ≡ a.now.w) }
    ensures product { IfOk result (λ r. IsProduct (2 ^ a.now.w) (polynomial_of r.tree)
        (polynomial_of a.now.tree) (polynomial_of b.now.tree)) }
{
    let tree = mul_trees(alloc, a.w, &a.tree, &b.tree)?;
    Ok(Expr { w: a.w, tree })
}

/// The negation.
pub fn neg(alloc: Global, a: &Expr) -> Result<Expr, AllocError>
    ensures width { IfOk result (λ r. r.w ≡ a.now.w) }
    ensures negation { IfOk result (λ r. IsNegated (2 ^ a.now.w) (polynomial_of r.tree)
        (polynomial_of a.now.tree)) }
{
    let tree = scale_tree(alloc, a.w, &a.tree, a.w.mask())?;
    Ok(Expr { w: a.w, tree })
}

/// The expression at a width that isn't above its own.
pub fn truncate(alloc: Global, a: &Expr, w: Width) -> Result<Expr, AllocError>
    requires { w ≤ a.now.w }
    ensures width { IfOk result (λ r. r.w ≡ w) }
    ensures truncation { IfOk result (λ r. IsTruncated (2 ^ w) (polynomial_of r.tree)
        (polynomial_of a.now.tree)) }
{
    let tree = scale_tree(alloc, w, &a.tree, 1)?;
    Ok(Expr { w, tree })
}

/// The expression with n in place of a counter: each C(counter,k) becomes its number.
pub fn at(alloc: Global, a: &Expr, counter: Label, n: u64) -> Result<Expr, AllocError>
    requires { IsWithin (polynomial_of a.now.tree) }
    ensures width { IfOk result (λ r. r.w ≡ a.now.w) }
    ensures replaced { IfOk result (λ r. IsAt (2 ^ a.now.w) (variable_of true counter.0) n
        (polynomial_of r.tree) (polynomial_of a.now.tree)) }
{
    let tree = at_tree(alloc, a.w, &a.tree, counter, n)?;
    Ok(Expr { w: a.w, tree })
}

/// The value modulo 2 to the width, where `env` has the numbers of the symbols and `counters` the
/// turns of the counters. The first entry of a label counts, and a label without an entry is 0.
pub fn value(a: &Expr, env: &[(Label, u64)], counters: &[(Label, u64)]) -> u64
    requires { IsWithin (polynomial_of a.now.tree) }
    ensures { result ≡ value_of (numbers (number_in env.now) (number_in counters.now))
        (polynomial_of a.now.tree) % 2 ^ a.now.w }
{
    tree_value(a.w, &a.tree, env, counters)
}

/// The expression where it is within the limits, else the symbol `own` of the value itself.
pub fn cut(alloc: Global, a: Expr, own: Label) -> Result<Expr, AllocError>
    ensures width { IfOk result (λ r. r.w ≡ a.w) }
    ensures kept { IfOk result (λ r. IsWithin (polynomial_of a.tree) → polynomial_of r.tree
        ≡ polynomial_of a.tree) }
    ensures dropped { IfOk result (λ r. (IsWithin (polynomial_of a.tree) → ⊥) → polynomial_of
        r.tree ≡ variable (variable_of false own.0)) }
    ensures within { IfOk result (λ r. IsWithin (polynomial_of r.tree)) }
{
    if is_within(&a) {
        Ok(a)
    } else {
        Ok(sym(alloc, a.w, own)?)
    }
}
