ghost use Rattle.std.specs.Prelude.{◌≡◌, ℕ, ◌<◌, ◌^◌, ◌⊎◌, IfOk, length};
ghost use Rattle.chrec_algebra.specs.Product.{IsAdded};
ghost use Rattle.chrec_algebra.specs.Sum.{IsSum, IsSumIn, IsPlaceSum};
ghost use Rattle.scev_tree.specs.Polynomial.{IsCanonical, AreCanonical};
ghost use Rattle.scev_tree.specs.Tree.{polynomial_of, polynomials};
ghost use Rattle.scev_tree.specs.Variable.{rank_of};

use crate::align::{Aligned, align};
use arith_word::{Width, add, mul};
use scev_tree::{Tree, Variable, build, copy_tree, scale_tree};
use std::alloc::{AllocError, Global};

/// The sum modulo 2 to the width.
#[cycle(adding)]
#[tactic(auto, using(crate::proofs::Sides::polynomial_of_num))]
pub fn add_trees(alloc: Global, w: Width, a: &Tree, b: &Tree) -> Result<Tree, AllocError>
    requires left { IsCanonical (2 ^ w) (polynomial_of a.now) }
    requires right { IsCanonical (2 ^ w) (polynomial_of b.now) }
    ensures { IfOk result (λ r. IsSum (2 ^ w) (polynomial_of r) (polynomial_of a.now)
        (polynomial_of b.now)) }
{
    match align(a, b) {
        Aligned::Numbers(u, v) => Ok(Tree::Num(add(w, u, v))),
        Aligned::Places { x, left, right } => Ok(add_places(alloc, w, x, left, right)?),
    }
}

#[cycle(adding)]
fn add_places(
    alloc: Global,
    w: Width,
    x: Variable,
    ps: &[Tree],
    qs: &[Tree],
) -> Result<Tree, AllocError>
    requires left { AreCanonical (2 ^ w) (polynomials ps.now) (rank_of x) }
    requires right { AreCanonical (2 ^ w) (polynomials qs.now) (rank_of x) }
    ensures { IfOk result (λ r. IsSumIn (2 ^ w) (rank_of x) (polynomial_of r) (polynomials ps.now)
        (polynomials qs.now)) }
{
    let count = ps.len().max(qs.len());
    let mut out = Vec::with_capacity(alloc, count)?;
    for k in 0..count {
        out.push(add_place(alloc, w, x, ps, qs, k)?)?;
    }
    Ok(build(x, out))
}

#[cycle(adding)]
fn add_place(
    alloc: Global,
    w: Width,
    x: Variable,
    ps: &[Tree],
    qs: &[Tree],
    k: usize,
) -> Result<Tree, AllocError>
    requires left { AreCanonical (2 ^ w) (polynomials ps.now) (rank_of x) }
    requires right { AreCanonical (2 ^ w) (polynomials qs.now) (rank_of x) }
    requires within { (k < length ps.now) ⊎ (k < length qs.now) }
    ensures { IfOk result (λ r. IsPlaceSum (2 ^ w) (rank_of x) k (polynomial_of r)
        (polynomials ps.now) (polynomials qs.now)) }
{
    let _ = x;
    if k >= ps.len() {
        return Ok(copy_tree(alloc, &qs[k])?);
    }
    if k >= qs.len() {
        return Ok(copy_tree(alloc, &ps[k])?);
    }
    Ok(add_trees(alloc, w, &ps[k], &qs[k])?)
}

/// `old + c * t` modulo 2 to the width.
#[tactic(auto, using(crate::proofs::Sides::polynomial_of_num))]
pub fn add_multiple(
    alloc: Global,
    w: Width,
    old: &Tree,
    c: u64,
    t: &Tree,
) -> Result<Tree, AllocError>
    requires old { IsCanonical (2 ^ w) (polynomial_of old.now) }
    requires tree { IsCanonical (2 ^ w) (polynomial_of t.now) }
    ensures { IfOk result (λ r. IsAdded (2 ^ w) c (polynomial_of r) (polynomial_of old.now)
        (polynomial_of t.now)) }
{
    match old {
        Tree::Num(u) => match t {
            Tree::Num(v) => Ok(Tree::Num(add(w, *u, mul(w, c, *v)))),
            Tree::Ext { .. } => Ok(add_nested_multiple(alloc, w, old, c, t)?),
        },
        Tree::Ext { .. } => Ok(add_nested_multiple(alloc, w, old, c, t)?),
    }
}

fn add_nested_multiple(
    alloc: Global,
    w: Width,
    old: &Tree,
    c: u64,
    t: &Tree,
) -> Result<Tree, AllocError>
    requires old { IsCanonical (2 ^ w) (polynomial_of old.now) }
    requires tree { IsCanonical (2 ^ w) (polynomial_of t.now) }
    ensures { IfOk result (λ r. IsAdded (2 ^ w) c (polynomial_of r) (polynomial_of old.now)
        (polynomial_of t.now)) }
{
    if c == 1 {
        return Ok(add_trees(alloc, w, old, t)?);
    }
    let more = scale_tree(alloc, w, t, c)?;
    Ok(add_trees(alloc, w, old, &more)?)
}
