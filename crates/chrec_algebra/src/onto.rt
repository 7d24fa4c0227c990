ghost use Rattle.std.specs.Prelude.{◌≡◌, ℕ, true, false, ◌⊎◌, ◌<◌, ◌≤◌, ◌^◌, List, IfOk, IfSome, length};
ghost use Rattle.scev_tree.specs.Side.{IsSide};
ghost use Rattle.chrec_algebra.specs.Product.{IsAdded, IsPut};
ghost use Rattle.chrec_algebra.specs.Onto.{AreAdded, AreFirst, IsAddedIn};
ghost use Rattle.chrec_algebra.specs.Numbers.{numbers};
ghost use Rattle.scev_tree.specs.Polynomial.{Polynomial, Power, num, place, ext, IsCanonical, AreCanonical, IsBuilt};
ghost use Rattle.scev_tree.specs.Tree.{polynomial_of, polynomials, EndsZero, Tidy};
ghost use Rattle.scev_tree.specs.Variable.{rank_of};

use crate::chains::are_numbers;
use crate::multiplier::Multiplier;
use crate::places::{overlay, zeros};
use crate::sum::add_multiple;
use arith_word::{Width, add, mul};
use scev_tree::{Tree, Variable, build, is_zero, scale_tree};
use sqlite_items::Items;
use std::alloc::{AllocError, Global};
use std::{mem, slice};

// Whether there are at least two places, the last of which isn't 0.
fn are_tidy(ts: &[Tree]) -> bool
    ensures tidy { result ≡ true → (1 < length ts.now) × Tidy (polynomials ts.now) }
    ensures not { result ≡ false → (length ts.now ≤ 1) ⊎ EndsZero (polynomials ts.now) }
{
    match ts {
        [_, .., last] => !is_zero(last),
        _ => false,
    }
}

// The canonical tree of the polynomial in this variable with these places.
fn rebuild(x: Variable, mut ops: Items<Tree>) -> Tree
    ensures { (M : ℕ) → 0 < M → AreCanonical M (polynomials ops) (rank_of x) → IsBuilt M (rank_of x)
        (polynomials ops) (polynomial_of result) }
{
    if are_tidy(ops.as_slice()) {
        return Tree::Ext {
            counter: x.counter,
            var: x.label,
            ops,
        };
    }
    match ops.pop() {
        None => Tree::Num(0),
        Some(last) => {
            if ops.is_empty() {
                return last;
            }
            rebuild(x, ops)
        }
    }
}

// The places of a tree as one in this variable; none where it has a greater one.
#[tactic(auto, using(crate::proofs::Sides::polynomial_of_ext, crate::proofs::Sides::polynomial_of_num))]
fn places_in<'a>(x: Variable, t: &'a Tree) -> Option<&'a [Tree]>
    ensures { IfSome result (λ ts. IsSide (rank_of x) (polynomials ts.now) (polynomial_of t.now)) }
{
    match t {
        Tree::Num(_) => Some(slice::from_ref(t)),
        Tree::Ext {
            counter: other,
            var: to,
            ops,
        } => {
            let y = Variable {
                counter: *other,
                label: *to,
            };
            if y.rank() < x.rank() {
                Some(slice::from_ref(t))
            } else if x.rank() < y.rank() {
                None
            } else {
                Some(ops.as_slice())
            }
        }
    }
}

// Adds c * t to the place k, which is one of the places or the next.
fn add_tree_to_place(
    alloc: Global,
    w: Width,
    ops: &mut Items<Tree>,
    k: usize,
    c: u64,
    t: &Tree,
) -> Result<(), AllocError>
    requires within { k ≤ length ops.old }
    requires places { (x : ℕ) × AreCanonical (2 ^ w) (polynomials ops.old) x }
    requires tree { IsCanonical (2 ^ w) (polynomial_of t.now) }
    ensures put { IfOk result (λ _. IsPut (2 ^ w) k c (polynomial_of t.now) (polynomials ops.old)
        (polynomials ops.new)) }
    ensures count { IfOk result (λ _. k < length ops.new) }
{
    if k < ops.len() {
        let sum = add_multiple(alloc, w, &ops.as_slice()[k], c, t)?;
        ops.set(k, sum);
    } else {
        let more = scale_tree(alloc, w, t, c)?;
        ops.push(more)?;
    }
    Ok(())
}

// The same for a number, in the memory of a number.
#[tactic(auto, using(crate::proofs::Sides::polynomial_of_num))]
fn add_number_to_place(
    alloc: Global,
    w: Width,
    ops: &mut Items<Tree>,
    k: usize,
    c: u64,
    v: u64,
) -> Result<(), AllocError>
    requires within { k ≤ length ops.old }
    requires places { (x : ℕ) × AreCanonical (2 ^ w) (polynomials ops.old) x }
    requires number { v < 2 ^ w }
    ensures put { IfOk result (λ _. IsPut (2 ^ w) k c (num v) (polynomials ops.old)
        (polynomials ops.new)) }
    ensures count { IfOk result (λ _. k < length ops.new) }
{
    if k < ops.len() {
        if let Tree::Num(u) = ops.as_slice()[k] {
            let sum = add(w, u, mul(w, c, v));
            ops.set(k, Tree::Num(sum));
            return Ok(());
        }
    }
    add_tree_to_place(alloc, w, ops, k, c, &Tree::Num(v))?;
    Ok(())
}

// The same, in place where both are numbers.
#[tactic(auto, using(crate::proofs::Sides::polynomial_of_num))]
fn add_to_place(
    alloc: Global,
    w: Width,
    ops: &mut Items<Tree>,
    k: usize,
    c: u64,
    t: &Tree,
) -> Result<(), AllocError>
    requires within { k ≤ length ops.old }
    requires places { (x : ℕ) × AreCanonical (2 ^ w) (polynomials ops.old) x }
    requires tree { IsCanonical (2 ^ w) (polynomial_of t.now) }
    ensures put { IfOk result (λ _. IsPut (2 ^ w) k c (polynomial_of t.now) (polynomials ops.old)
        (polynomials ops.new)) }
    ensures count { IfOk result (λ _. k < length ops.new) }
{
    match t {
        Tree::Num(v) => Ok(add_number_to_place(alloc, w, ops, k, c, *v)?),
        Tree::Ext { .. } => Ok(add_tree_to_place(alloc, w, ops, k, c, t)?),
    }
}

// Adds c times the places `ts` to the places.
fn add_to_places(
    alloc: Global,
    w: Width,
    ops: &mut Items<Tree>,
    c: u64,
    ts: &[Tree],
) -> Result<(), AllocError>
    requires { (x : ℕ) × AreCanonical (2 ^ w) (polynomials ops.old) x × AreCanonical (2 ^ w)
        (polynomials ts.now) x }
    ensures { IfOk result (λ _. AreAdded (2 ^ w) c (length ts.now) (polynomials ts.now)
        (polynomials ops.old) (polynomials ops.new)) }
{
    for (k, t) in ts.iter().enumerate() {
        add_to_place(alloc, w, ops, k, c, t)?;
    }
    Ok(())
}

// Adds c times the places `ts` to the places, in the memory of each.
#[cycle(adding_onto)]
fn add_to_each(
    alloc: Global,
    w: Width,
    x: Variable,
    out: &mut Vec<Tree>,
    c: u64,
    ts: &[Tree],
) -> Result<(), AllocError>
    requires within { length ts.now ≤ length out.old.items }
    requires places { AreCanonical (2 ^ w) (polynomials out.old.items) (rank_of x) }
    requires more { AreCanonical (2 ^ w) (polynomials ts.now) (rank_of x) }
    ensures { IfOk result (λ _. AreAdded (2 ^ w) c (length ts.now) (polynomials ts.now)
        (polynomials out.old.items) (polynomials out.new.items)) }
{
    let _ = x;
    for (k, t) in ts.iter().enumerate() {
        let old = mem::replace(&mut out[k], Tree::Num(0));
        let sum = add_onto(alloc, w, old, c, t)?;
        out[k] = sum;
    }
    Ok(())
}

#[cycle(adding_onto)]
fn add_in_places(
    alloc: Global,
    w: Width,
    x: Variable,
    mut ops: Items<Tree>,
    c: u64,
    ts: &[Tree],
) -> Result<Tree, AllocError>
    requires places { AreCanonical (2 ^ w) (polynomials ops) (rank_of x) }
    requires more { AreCanonical (2 ^ w) (polynomials ts.now) (rank_of x) }
    ensures { IfOk result (λ r. (t : Polynomial) → IsCanonical (2 ^ w) t → IsSide (rank_of x)
        (polynomials ts.now) t → IsAdded (2 ^ w) c (polynomial_of r)
        (ext (rank_of x) (polynomials ops)) t) }
{
    if are_numbers(ops.as_slice()) && are_numbers(ts) {
        add_to_places(alloc, w, &mut ops, c, ts)?;
        return Ok(rebuild(x, ops));
    }
    let empty = zeros(alloc, ops.len().max(ts.len()))?;
    let mut out = overlay(ops, empty);
    add_to_each(alloc, w, x, &mut out, c, ts)?;
    Ok(build(x, out))
}

#[tactic(auto, using(crate::proofs::Sides::polynomial_of_num))]
fn add_to_number(alloc: Global, w: Width, u: u64, c: u64, t: &Tree) -> Result<Tree, AllocError>
    requires number { u < 2 ^ w }
    requires tree { IsCanonical (2 ^ w) (polynomial_of t.now) }
    ensures { IfOk result (λ r. IsAdded (2 ^ w) c (polynomial_of r) (num u) (polynomial_of t.now)) }
{
    if u == 0 {
        return Ok(scale_tree(alloc, w, t, c)?);
    }
    Ok(add_multiple(alloc, w, &Tree::Num(u), c, t)?)
}

/// `old + c * t` modulo 2 to the width, in the memory of `old` where its variable isn't below that
/// of t.
#[cycle(adding_onto)]
#[tactic(auto, using(crate::proofs::Sides::polynomial_of_ext, crate::proofs::Sides::polynomial_of_num))]
pub fn add_onto(alloc: Global, w: Width, old: Tree, c: u64, t: &Tree) -> Result<Tree, AllocError>
    requires old { IsCanonical (2 ^ w) (polynomial_of old) }
    requires tree { IsCanonical (2 ^ w) (polynomial_of t.now) }
    ensures { IfOk result (λ r. IsAdded (2 ^ w) c (polynomial_of r) (polynomial_of old)
        (polynomial_of t.now)) }
{
    match old {
        Tree::Num(u) => Ok(add_to_number(alloc, w, u, c, t)?),
        Tree::Ext { counter, var, ops } => {
            let x = Variable {
                counter,
                label: var,
            };
            match places_in(x, t) {
                Some(ts) => Ok(add_in_places(alloc, w, x, ops, c, ts)?),
                None => Ok(add_multiple(alloc, w, &Tree::Ext { counter, var, ops }, c, t)?),
            }
        }
    }
}

/// `old + c * t`, where t is moved if nothing is there.
pub fn settle(alloc: Global, w: Width, old: Tree, c: u64, t: Tree) -> Result<Tree, AllocError>
    requires old { IsCanonical (2 ^ w) (polynomial_of old) }
    requires tree { IsCanonical (2 ^ w) (polynomial_of t) }
    ensures { IfOk result (λ r. IsAdded (2 ^ w) c (polynomial_of r) (polynomial_of old)
        (polynomial_of t)) }
{
    if c == 1 && is_zero(&old) {
        return Ok(t);
    }
    Ok(add_onto(alloc, w, old, c, &t)?)
}

// Adds c times the first `count` of the numbers to the places.
fn add_numbers(
    alloc: Global,
    w: Width,
    ops: &mut Items<Tree>,
    c: u64,
    vs: &[u64; 18],
    count: usize,
) -> Result<(), AllocError>
    requires count { count ≤ 18 }
    requires places { (x : ℕ) × AreCanonical (2 ^ w) (polynomials ops.old) x × AreCanonical (2 ^ w)
        (numbers vs.now) x }
    ensures { IfOk result (λ _. AreAdded (2 ^ w) c count (numbers vs.now) (polynomials ops.old)
        (polynomials ops.new)) }
{
    for k in 0..count {
        add_number_to_place(alloc, w, ops, k, c, vs[k])?;
    }
    Ok(())
}

// The first `count` of the numbers as trees.
fn number_trees(alloc: Global, vs: &[u64; 18], count: usize) -> Result<Vec<Tree>, AllocError>
    requires count { count ≤ 18 }
    ensures { IfOk result (λ r. AreFirst count (polynomials r.items) (numbers vs.now)) }
{
    let mut out = Vec::with_capacity(alloc, count)?;
    for k in 0..count {
        out.push(Tree::Num(vs[k]))?;
    }
    Ok(out)
}

// The same where the tree is in another variable, or a number.
fn settle_numbers(
    alloc: Global,
    old: Tree,
    by: &Multiplier,
    vs: &[u64; 18],
    count: usize,
) -> Result<Tree, AllocError>
    requires old { IsCanonical (2 ^ by.now.w) (polynomial_of old) }
    requires numbers { AreCanonical (2 ^ by.now.w) (numbers vs.now) (rank_of by.now.x) }
    requires count { count ≤ 18 }
    requires rest { (k : ℕ) (m : List Power) → count ≤ k → place (numbers vs.now) k m ≡ 0 }
    ensures { IfOk result (λ r. IsAddedIn (2 ^ by.now.w) by.now.c (rank_of by.now.x)
        (polynomial_of r) (polynomial_of old) (numbers vs.now)) }
{
    let places = number_trees(alloc, vs, count)?;
    let chain = build(by.x, places);
    Ok(settle(alloc, by.w, old, by.c, chain)?)
}

/// Adds a multiple of the polynomial whose places are the first `count` of the numbers.
pub fn add_chain(
    alloc: Global,
    old: Tree,
    by: &Multiplier,
    vs: &[u64; 18],
    count: usize,
) -> Result<Tree, AllocError>
    requires old { IsCanonical (2 ^ by.now.w) (polynomial_of old) }
    requires numbers { AreCanonical (2 ^ by.now.w) (numbers vs.now) (rank_of by.now.x) }
    requires count { count ≤ 18 }
    requires rest { (k : ℕ) (m : List Power) → count ≤ k → place (numbers vs.now) k m ≡ 0 }
    ensures { IfOk result (λ r. IsAddedIn (2 ^ by.now.w) by.now.c (rank_of by.now.x)
        (polynomial_of r) (polynomial_of old) (numbers vs.now)) }
{
    match old {
        Tree::Num(u) => Ok(settle_numbers(alloc, Tree::Num(u), by, vs, count)?),
        Tree::Ext {
            counter: other,
            var: to,
            mut ops,
        } => {
            let y = Variable {
                counter: other,
                label: to,
            };
            if y.rank() == by.x.rank() {
                add_numbers(alloc, by.w, &mut ops, by.c, vs, count)?;
                return Ok(rebuild(by.x, ops));
            }
            let old = Tree::Ext {
                counter: other,
                var: to,
                ops,
            };
            Ok(settle_numbers(alloc, old, by, vs, count)?)
        }
    }
}
