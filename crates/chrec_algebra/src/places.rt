ghost use Rattle.std.specs.Prelude.{◌≡◌, ℕ, ◌-◌, ◌≤◌, ◌^◌, IfOk, length, vec_len};
ghost use Rattle.chrec_algebra.specs.Product.{AreZeros};
ghost use Rattle.chrec_algebra.specs.Places.{IsOverlaid, IsOpened, IsRaised, AreRisen};
ghost use Rattle.scev_tree.specs.Polynomial.{IsCanonical, AreCanonical};
ghost use Rattle.scev_tree.specs.Tree.{polynomial_of, polynomials};
ghost use Rattle.scev_tree.specs.Variable.{rank_of};

use crate::onto::add_onto;
use arith_word::Width;
use scev_tree::{Tree, Variable, copy_tree};
use sqlite_items::Items;
use std::alloc::{AllocError, Global};
use std::mem;

/// The places of a product before anything is added: those of an old tree, and what of the tree
/// isn't in them.
#[derive(Debug, Drop)]
pub struct Opened {
    pub places: Vec<Tree>,
    pub rest: Tree,
}

/// Zeros.
pub fn zeros(alloc: Global, count: usize) -> Result<Vec<Tree>, AllocError>
    ensures { IfOk result (λ v. (vec_len v ≡ count) × AreZeros (polynomials v.items)) }
{
    let mut out = Vec::with_capacity(alloc, count)?;
    for k in 0..count {
        let _ = k;
        out.push(Tree::Num(0))?;
    }
    Ok(out)
}

/// Moves the trees of `ops` to the places that they have there.
pub fn overlay(mut ops: Items<Tree>, mut out: Vec<Tree>) -> Vec<Tree>
    requires { length ops ≤ length out.items }
    ensures count { vec_len result ≡ vec_len out }
    ensures places { IsOverlaid (length ops) (polynomials ops) (polynomials out.items)
        (polynomials result.items) }
{
    match ops.pop() {
        None => out,
        Some(last) => {
            out[ops.len()] = last;
            overlay(ops, out)
        }
    }
}

/// The places of a tree in this variable, at least `count` of them; a tree in another variable is
/// the rest.
pub fn open(alloc: Global, x: Variable, old: Tree, count: usize) -> Result<Opened, AllocError>
    ensures count { IfOk result (λ r. count ≤ length r.places.items) }
    ensures opened { IfOk result (λ r. IsOpened (rank_of x) (polynomials r.places.items)
        (polynomial_of r.rest) (polynomial_of old)) }
{
    match old {
        Tree::Num(v) => Ok(Opened {
            places: zeros(alloc, count)?,
            rest: Tree::Num(v),
        }),
        Tree::Ext {
            counter: other,
            var: to,
            ops,
        } => {
            let y = Variable {
                counter: other,
                label: to,
            };
            if y.rank() == x.rank() {
                let out = zeros(alloc, count.max(ops.len()))?;
                return Ok(Opened {
                    places: overlay(ops, out),
                    rest: Tree::Num(0),
                });
            }
            Ok(Opened {
                places: zeros(alloc, count)?,
                rest: Tree::Ext {
                    counter: other,
                    var: to,
                    ops,
                },
            })
        }
    }
}

/// Copies, which stand for the same polynomials.
pub fn copy_places(alloc: Global, ts: &[Tree]) -> Result<Vec<Tree>, AllocError>
    ensures { IfOk result (λ r. polynomials r.items ≡ polynomials ts.now) }
{
    let mut out = Vec::with_capacity(alloc, ts.len())?;
    for t in ts {
        out.push(copy_tree(alloc, t)?)?;
    }
    Ok(out)
}

// Adds to each place the next.
fn raise(alloc: Global, w: Width, us: &mut Vec<Tree>) -> Result<(), AllocError>
    requires { (x : ℕ) × AreCanonical (2 ^ w) (polynomials us.old.items) x }
    ensures raised { IfOk result (λ _. IsRaised (2 ^ w) (polynomials us.old.items)
        (polynomials us.new.items)) }
    ensures count { vec_len us.new ≡ vec_len us.old }
{
    for j in 1..us.len() {
        let old = mem::replace(&mut us[j - 1], Tree::Num(0));
        let sum = add_onto(alloc, w, old, 1, &us[j])?;
        us[j - 1] = sum;
    }
    Ok(())
}

/// Makes the row i of sums from the row before it. The row 0 is the places qs themselves, and each
/// other one has the sums of two neighbours in the row before.
pub fn raise_to(
    alloc: Global,
    w: Width,
    us: &mut Vec<Tree>,
    i: usize,
    qs: &[Tree],
) -> Result<(), AllocError>
    requires { (x : ℕ) × AreRisen (2 ^ w) x (i - 1) (polynomials us.old.items)
        (polynomials qs.now) }
    ensures risen { IfOk result (λ _. (x : ℕ) → AreRisen (2 ^ w) x (i - 1)
        (polynomials us.old.items) (polynomials qs.now) → AreRisen (2 ^ w) x i
        (polynomials us.new.items) (polynomials qs.now)) }
    ensures count { vec_len us.new ≡ vec_len us.old }
{
    let _ = qs;
    if i > 0 {
        raise(alloc, w, us)?;
    }
    Ok(())
}
