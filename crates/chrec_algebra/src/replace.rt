ghost use Rattle.std.specs.Prelude.{◌≡◌, ℕ, true, ◌≤◌, ◌^◌, IfOk, length};
ghost use Rattle.chrec_algebra.specs.Place.{IsAt, IsCombined};
ghost use Rattle.chrec_algebra.specs.Product.{Narrow, NarrowAll};
ghost use Rattle.scev_tree.specs.Polynomial.{IsCanonical, AreCanonical, variable_of};
ghost use Rattle.scev_tree.specs.Tree.{polynomial_of, polynomials, Each};

use crate::onto::add_onto;
use arith_word::{Label, Width};
use scev_binom::choose;
use scev_tree::{Tree, Variable, build, copy_tree};
use std::alloc::{AllocError, Global};

/// The polynomial with n in place of a counter.
#[cycle(replacing)]
pub fn at_tree(alloc: Global, w: Width, t: &Tree, place: Label, n: u64) -> Result<Tree, AllocError>
    requires canon { IsCanonical (2 ^ w) (polynomial_of t.now) }
    requires narrow { Narrow (polynomial_of t.now) }
    ensures { IfOk result (λ r. IsAt (2 ^ w) (variable_of true place.0) n (polynomial_of r)
        (polynomial_of t.now)) }
{
    match t {
        Tree::Num(v) => Ok(Tree::Num(*v)),
        Tree::Ext { counter, var, ops } => {
            let x = Variable {
                counter: *counter,
                label: *var,
            };
            let y = Variable {
                counter: true,
                label: place,
            };
            if x.rank() < y.rank() {
                return Ok(copy_tree(alloc, t)?);
            }
            if y.rank() < x.rank() {
                let places = at_all(alloc, w, ops.as_slice(), place, n)?;
                return Ok(build(x, places));
            }
            Ok(combine(alloc, w, place, ops.as_slice(), n)?)
        }
    }
}

#[cycle(replacing)]
fn at_all(
    alloc: Global,
    w: Width,
    ts: &[Tree],
    place: Label,
    n: u64,
) -> Result<Vec<Tree>, AllocError>
    requires canon { (x : ℕ) × AreCanonical (2 ^ w) (polynomials ts.now) x }
    requires narrow { NarrowAll (polynomials ts.now) }
    ensures { IfOk result (λ r. Each (IsAt (2 ^ w) (variable_of true place.0) n)
        (polynomials r.items) (polynomials ts.now)) }
{
    let mut out = Vec::with_capacity(alloc, ts.len())?;
    for t in ts {
        out.push(at_tree(alloc, w, t, place, n)?)?;
    }
    Ok(out)
}

// The sum of the places of a counter, each times its binomial.
fn combine(alloc: Global, w: Width, place: Label, ts: &[Tree], n: u64) -> Result<Tree, AllocError>
    requires canon { AreCanonical (2 ^ w) (polynomials ts.now) (variable_of true place.0) }
    requires count { length ts.now ≤ 9 }
    ensures { IfOk result (λ r. IsCombined (2 ^ w) (variable_of true place.0) n (length ts.now)
        (polynomial_of r) (polynomials ts.now)) }
{
    let _ = place;
    let mut sum = Tree::Num(0);
    for (k, t) in ts.iter().enumerate() {
        let c = choose(w, n, k as u32);
        sum = add_onto(alloc, w, sum, c, t)?;
    }
    Ok(sum)
}
