ghost use Rattle.std.specs.Prelude.{◌≡◌, ℕ, true, false, ◌+◌, ◌*◌, ◌%◌, ◌<◌, ◌≤◌, ◌^◌, ◌⊎◌, IfOk, length, vec_len};
ghost use Rattle.chrec_algebra.specs.Product.{IsAdded, IsProduct, IsProductAdded, IsProductAddedIn, IsProductPut, IsRow, AreRows, Narrow, NarrowAll};
ghost use Rattle.scev_tree.specs.Polynomial.{IsCanonical, AreCanonical, Under};
ghost use Rattle.scev_tree.specs.Tree.{polynomial_of, polynomials};
ghost use Rattle.scev_tree.specs.Variable.{rank_of};

use crate::align::{Aligned, align};
use crate::chains::{are_numbers, multiply_chains, row_factor};
use crate::multiplier::Multiplier;
use crate::onto::{add_chain, add_onto, settle};
use crate::places::{copy_places, open, raise_to};
use arith_word::{Width, mul};
use scev_tree::{Tree, build};
use std::alloc::{AllocError, Global};
use std::mem;

/// The product modulo 2 to the width, of trees with at most 9 places at each level.
#[tactic(auto, using(crate::proofs::Sides::polynomial_of_num))]
pub fn mul_trees(alloc: Global, w: Width, a: &Tree, b: &Tree) -> Result<Tree, AllocError>
    requires left { IsCanonical (2 ^ w) (polynomial_of a.now) }
    requires right { IsCanonical (2 ^ w) (polynomial_of b.now) }
    requires narrow_left { Narrow (polynomial_of a.now) }
    requires narrow_right { Narrow (polynomial_of b.now) }
    ensures { IfOk result (λ r. IsProduct (2 ^ w) (polynomial_of r) (polynomial_of a.now)
        (polynomial_of b.now)) }
{
    Ok(add_product(alloc, w, Tree::Num(0), 1, a, b)?)
}

// `old + c * a * b` in the memory of `old`.
#[cycle(multiplying)]
fn add_product(
    alloc: Global,
    w: Width,
    old: Tree,
    c: u64,
    a: &Tree,
    b: &Tree,
) -> Result<Tree, AllocError>
    requires old { IsCanonical (2 ^ w) (polynomial_of old) }
    requires left { IsCanonical (2 ^ w) (polynomial_of a.now) }
    requires right { IsCanonical (2 ^ w) (polynomial_of b.now) }
    requires narrow_left { Narrow (polynomial_of a.now) }
    requires narrow_right { Narrow (polynomial_of b.now) }
    ensures { IfOk result (λ r. IsProductAdded (2 ^ w) c (polynomial_of r) (polynomial_of old)
        (polynomial_of a.now) (polynomial_of b.now)) }
{
    if let Tree::Num(u) = a {
        return Ok(add_onto(alloc, w, old, mul(w, c, *u), b)?);
    }
    if let Tree::Num(v) = b {
        return Ok(add_onto(alloc, w, old, mul(w, c, *v), a)?);
    }
    Ok(add_nested_product(alloc, w, old, c, a, b)?)
}

// The same by the places of the greater variable.
#[cycle(multiplying)]
fn add_nested_product(
    alloc: Global,
    w: Width,
    old: Tree,
    c: u64,
    a: &Tree,
    b: &Tree,
) -> Result<Tree, AllocError>
    requires old { IsCanonical (2 ^ w) (polynomial_of old) }
    requires left { IsCanonical (2 ^ w) (polynomial_of a.now) }
    requires right { IsCanonical (2 ^ w) (polynomial_of b.now) }
    requires narrow_left { Narrow (polynomial_of a.now) }
    requires narrow_right { Narrow (polynomial_of b.now) }
    ensures { IfOk result (λ r. IsProductAdded (2 ^ w) c (polynomial_of r) (polynomial_of old)
        (polynomial_of a.now) (polynomial_of b.now)) }
{
    match align(a, b) {
        Aligned::Numbers(u, _) => Ok(add_onto(alloc, w, old, mul(w, c, u), b)?),
        Aligned::Places { x, left, right } => {
            let by = Multiplier { w, c, x };
            Ok(add_product_in(alloc, old, &by, left, right)?)
        }
    }
}

#[cycle(multiplying)]
fn add_product_in(
    alloc: Global,
    old: Tree,
    by: &Multiplier,
    ps: &[Tree],
    qs: &[Tree],
) -> Result<Tree, AllocError>
    requires old { IsCanonical (2 ^ by.now.w) (polynomial_of old) }
    requires left { AreCanonical (2 ^ by.now.w) (polynomials ps.now) (rank_of by.now.x) }
    requires right { AreCanonical (2 ^ by.now.w) (polynomials qs.now) (rank_of by.now.x) }
    requires left_count { length ps.now ≤ 9 }
    requires right_count { length qs.now ≤ 9 }
    requires narrow_left { NarrowAll (polynomials ps.now) }
    requires narrow_right { NarrowAll (polynomials qs.now) }
    ensures { IfOk result (λ r. IsProductAddedIn (2 ^ by.now.w) by.now.c (rank_of by.now.x)
        (polynomial_of r) (polynomial_of old) (polynomials ps.now) (polynomials qs.now)) }
{
    if are_numbers(ps) && are_numbers(qs) {
        let product = multiply_chains(by.w, by.x, ps, qs);
        let count = (ps.len() + qs.len()).saturating_sub(1);
        return Ok(add_chain(alloc, old, by, &product, count)?);
    }
    let mut opened = open(alloc, by.x, old, ps.len() + qs.len())?;
    add_rows(alloc, &mut opened.places, by, ps, qs)?;
    let sum = build(by.x, opened.places);
    Ok(settle(alloc, by.w, opened.rest, 1, sum)?)
}

// Adds c times the products of all of ps with all of qs to the places of the product.
#[cycle(multiplying)]
fn add_rows(
    alloc: Global,
    out: &mut Vec<Tree>,
    by: &Multiplier,
    ps: &[Tree],
    qs: &[Tree],
) -> Result<(), AllocError>
    requires within { length ps.now + length qs.now ≤ length out.old.items }
    requires places { AreCanonical (2 ^ by.now.w) (polynomials out.old.items) (rank_of by.now.x) }
    requires left { AreCanonical (2 ^ by.now.w) (polynomials ps.now) (rank_of by.now.x) }
    requires right { AreCanonical (2 ^ by.now.w) (polynomials qs.now) (rank_of by.now.x) }
    requires left_count { length ps.now ≤ 9 }
    requires right_count { length qs.now ≤ 9 }
    requires narrow_left { NarrowAll (polynomials ps.now) }
    requires narrow_right { NarrowAll (polynomials qs.now) }
    ensures { IfOk result (λ _. AreRows (2 ^ by.now.w) by.now.c (rank_of by.now.x) (length ps.now)
        (polynomials ps.now) (polynomials qs.now) (polynomials out.old.items)
        (polynomials out.new.items)) }
{
    if by.x.counter && ps.len() > 1 && qs.len() > 1 {
        add_rows_of_counter(alloc, out, by, ps, qs)?;
    } else {
        add_plain_rows(alloc, out, by, ps, qs)?;
    }
    Ok(())
}

// The same where the places i and j meet in the place i + j alone.
#[cycle(multiplying)]
fn add_plain_rows(
    alloc: Global,
    out: &mut Vec<Tree>,
    by: &Multiplier,
    ps: &[Tree],
    qs: &[Tree],
) -> Result<(), AllocError>
    requires plain { (by.now.x.counter ≡ false) ⊎ ((length ps.now ≤ 1) ⊎ (length qs.now ≤ 1)) }
    requires within { length ps.now + length qs.now ≤ length out.old.items }
    requires places { AreCanonical (2 ^ by.now.w) (polynomials out.old.items) (rank_of by.now.x) }
    requires left { AreCanonical (2 ^ by.now.w) (polynomials ps.now) (rank_of by.now.x) }
    requires right { AreCanonical (2 ^ by.now.w) (polynomials qs.now) (rank_of by.now.x) }
    requires left_count { length ps.now ≤ 9 }
    requires right_count { length qs.now ≤ 9 }
    requires narrow_left { NarrowAll (polynomials ps.now) }
    requires narrow_right { NarrowAll (polynomials qs.now) }
    ensures { IfOk result (λ _. AreRows (2 ^ by.now.w) by.now.c (rank_of by.now.x) (length ps.now)
        (polynomials ps.now) (polynomials qs.now) (polynomials out.old.items)
        (polynomials out.new.items)) }
{
    for (i, p) in ps.iter().enumerate() {
        add_row(alloc, out, by, i, p, qs)?;
    }
    Ok(())
}

// C(n,i) * C(n,j) is the sum over k of C(k,i) * C(i,k-j) * C(n,k). So the place i goes with the
// sums over j of C(i,k-j) times the places j of the other factor, and these follow from those of
// i - 1 by Pascal's rule.
#[cycle(multiplying)]
fn add_rows_of_counter(
    alloc: Global,
    out: &mut Vec<Tree>,
    by: &Multiplier,
    ps: &[Tree],
    qs: &[Tree],
) -> Result<(), AllocError>
    requires counter { by.now.x.counter ≡ true }
    requires within { length ps.now + length qs.now ≤ length out.old.items }
    requires places { AreCanonical (2 ^ by.now.w) (polynomials out.old.items) (rank_of by.now.x) }
    requires left { AreCanonical (2 ^ by.now.w) (polynomials ps.now) (rank_of by.now.x) }
    requires right { AreCanonical (2 ^ by.now.w) (polynomials qs.now) (rank_of by.now.x) }
    requires left_count { length ps.now ≤ 9 }
    requires right_count { length qs.now ≤ 9 }
    requires narrow_left { NarrowAll (polynomials ps.now) }
    requires narrow_right { NarrowAll (polynomials qs.now) }
    ensures { IfOk result (λ _. AreRows (2 ^ by.now.w) by.now.c (rank_of by.now.x) (length ps.now)
        (polynomials ps.now) (polynomials qs.now) (polynomials out.old.items)
        (polynomials out.new.items)) }
{
    let mut us = copy_places(alloc, qs)?;
    for (i, p) in ps.iter().enumerate() {
        raise_to(alloc, by.w, &mut us, i, qs)?;
        add_row(alloc, out, by, i, p, us.as_slice())?;
    }
    Ok(())
}

// Adds c times the products of p, which is place i, with all of qs.
#[cycle(multiplying)]
fn add_row(
    alloc: Global,
    out: &mut Vec<Tree>,
    by: &Multiplier,
    i: usize,
    p: &Tree,
    qs: &[Tree],
) -> Result<(), AllocError>
    requires index { i ≤ 8 }
    requires within { i + length qs.now < length out.old.items + 1 }
    requires places { AreCanonical (2 ^ by.now.w) (polynomials out.old.items) (rank_of by.now.x) }
    requires left { IsCanonical (2 ^ by.now.w) (polynomial_of p.now) }
    requires right { AreCanonical (2 ^ by.now.w) (polynomials qs.now) (rank_of by.now.x) }
    requires under { Under (polynomial_of p.now) (rank_of by.now.x) }
    requires right_count { length qs.now ≤ 9 }
    requires narrow_left { Narrow (polynomial_of p.now) }
    requires narrow_right { NarrowAll (polynomials qs.now) }
    ensures row { IfOk result (λ _. IsRow (2 ^ by.now.w) by.now.c (rank_of by.now.x) i
        (length qs.now) (polynomial_of p.now) (polynomials qs.now) (polynomials out.old.items)
        (polynomials out.new.items)) }
    ensures count { vec_len out.new ≡ vec_len out.old }
{
    for (j, q) in qs.iter().enumerate() {
        let row = Multiplier {
            w: by.w,
            c: row_factor(by, i, j),
            x: by.x,
        };
        put_product(alloc, out, i + j, &row, p, q)?;
    }
    Ok(())
}

// Adds c * p * q to the place k.
#[cycle(multiplying)]
fn put_product(
    alloc: Global,
    out: &mut Vec<Tree>,
    k: usize,
    by: &Multiplier,
    p: &Tree,
    q: &Tree,
) -> Result<(), AllocError>
    requires within { k < length out.old.items }
    requires places { (x : ℕ) × AreCanonical (2 ^ by.now.w) (polynomials out.old.items) x }
    requires left { IsCanonical (2 ^ by.now.w) (polynomial_of p.now) }
    requires right { IsCanonical (2 ^ by.now.w) (polynomial_of q.now) }
    requires narrow_left { Narrow (polynomial_of p.now) }
    requires narrow_right { Narrow (polynomial_of q.now) }
    ensures put { IfOk result (λ _. IsProductPut (2 ^ by.now.w) k by.now.c (polynomial_of p.now)
        (polynomial_of q.now) (polynomials out.old.items) (polynomials out.new.items)) }
    ensures count { vec_len out.new ≡ vec_len out.old }
{
    let old = mem::replace(&mut out[k], Tree::Num(0));
    let sum = add_product(alloc, by.w, old, by.c, p, q)?;
    out[k] = sum;
    Ok(())
}
