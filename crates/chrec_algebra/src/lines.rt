ghost use Rattle.std.specs.Prelude.{◌≡◌, true, IfOk, IsTrue, ◌↔◌};
ghost use Rattle.chrec_algebra.specs.Line.{IsLinear, AreLinear, IsPartOf, IsPlaceOf, IsSplit};
ghost use Rattle.scev_tree.specs.Polynomial.{num, variable_of};
ghost use Rattle.scev_tree.specs.Tree.{polynomial_of, polynomials, Each};

use arith_word::Label;
use scev_tree::{Expr, Tree, Variable, build, copy_tree};
use std::alloc::{AllocError, Global};

/// What is linear in a counter: `base + slope * n` in the iteration n. Neither has the counter.
#[derive(Debug, Drop)]
pub struct Line {
    pub base: Expr,
    pub slope: Expr,
}

/// The expression as a line in the counter; `None` exactly where the counter stands with an index
/// above 1. It may stand under greater variables, whose places are split one by one.
pub fn split(alloc: Global, e: &Expr, counter: Label) -> Result<Option<Line>, AllocError>
    ensures { IfOk result (λ line. IsSplit e.now.w (variable_of true counter.0)
        (polynomial_of e.now.tree) line) }
{
    if !is_linear(&e.tree, counter) {
        return Ok(None);
    }
    let base = part(alloc, &e.tree, counter, 0)?;
    let slope = part(alloc, &e.tree, counter, 1)?;
    Ok(Some(Line {
        base: Expr { w: e.w, tree: base },
        slope: Expr {
            w: e.w,
            tree: slope,
        },
    }))
}

// Whether the counter stands with an index of at most 1.
#[cycle(linear)]
#[tactic(auto, using(crate::proofs::Sides::polynomial_of_ext, crate::proofs::Sides::polynomial_of_num))]
fn is_linear(t: &Tree, counter: Label) -> bool
    ensures { IsTrue result ↔ IsLinear (variable_of true counter.0) (polynomial_of t.now) }
{
    match t {
        Tree::Num(_) => true,
        Tree::Ext {
            counter: is,
            var,
            ops,
        } => {
            let x = Variable {
                counter: *is,
                label: *var,
            };
            let y = Variable {
                counter: true,
                label: counter,
            };
            if x.rank() == y.rank() && ops.len() > 2 {
                return false;
            }
            are_linear(ops.as_slice(), counter)
        }
    }
}

#[cycle(linear)]
fn are_linear(ts: &[Tree], counter: Label) -> bool
    ensures { IsTrue result ↔ AreLinear (variable_of true counter.0) (polynomials ts.now) }
{
    for t in ts {
        if !is_linear(t, counter) {
            return false;
        }
    }
    true
}

// The polynomial of the coefficients of C(counter,k).
#[cycle(parting)]
fn part(alloc: Global, t: &Tree, counter: Label, k: usize) -> Result<Tree, AllocError>
    ensures { IfOk result (λ r. IsPartOf (variable_of true counter.0) k
        (polynomial_of r) (polynomial_of t.now)) }
{
    match t {
        Tree::Num(_) => Ok(part_of_lower(alloc, t, k)?),
        Tree::Ext {
            counter: is,
            var,
            ops,
        } => {
            let x = Variable {
                counter: *is,
                label: *var,
            };
            let y = Variable {
                counter: true,
                label: counter,
            };
            if x.rank() < y.rank() {
                return Ok(part_of_lower(alloc, t, k)?);
            }
            if y.rank() < x.rank() {
                let places = parts(alloc, ops.as_slice(), counter, k)?;
                return Ok(build(x, places));
            }
            Ok(copy_place(alloc, ops.as_slice(), k)?)
        }
    }
}

#[cycle(parting)]
fn parts(alloc: Global, ts: &[Tree], counter: Label, k: usize) -> Result<Vec<Tree>, AllocError>
    ensures { IfOk result (λ r. Each (IsPartOf (variable_of true counter.0) k)
        (polynomials r.items) (polynomials ts.now)) }
{
    let mut out = Vec::with_capacity(alloc, ts.len())?;
    for t in ts {
        out.push(part(alloc, t, counter, k)?)?;
    }
    Ok(out)
}

// The same where all variables are below the counter.
fn part_of_lower(alloc: Global, t: &Tree, k: usize) -> Result<Tree, AllocError>
    ensures whole { IfOk result (λ r. k ≡ 0 → polynomial_of r ≡ polynomial_of t.now) }
    ensures nothing { IfOk result (λ r. (k ≡ 0 → ⊥) → polynomial_of r ≡ num 0) }
{
    if k == 0 {
        return Ok(copy_tree(alloc, t)?);
    }
    Ok(Tree::Num(0))
}

// The place k; 0 where there are fewer.
fn copy_place(alloc: Global, ts: &[Tree], k: usize) -> Result<Tree, AllocError>
    ensures { IfOk result (λ r. IsPlaceOf k (polynomial_of r) (polynomials ts.now)) }
{
    if k < ts.len() {
        return Ok(copy_tree(alloc, &ts[k])?);
    }
    Ok(Tree::Num(0))
}
