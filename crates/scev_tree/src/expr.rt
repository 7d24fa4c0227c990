ghost use Rattle.std.specs.Prelude.{◌≡◌, false, ◌-◌, ◌%◌, ◌^◌, IfOk, IsTrue, ◌↔◌, min};
ghost use Rattle.scev_tree.specs.Measure.{monomials, total_degree};
ghost use Rattle.scev_tree.specs.Polynomial.{IsCanonical, canonical_prop, IsSamePolynomial, IsScaled, num as number, variable, variable_of};
ghost use Rattle.scev_tree.specs.Tree.{polynomial_of};

use crate::copies::copy_tree;
use crate::equal::equal_trees;
use crate::measure::{tree_degree, tree_size};
use crate::scaling::scale_tree;
use crate::tree::Tree;
use arith_word::{Label, Width};
use sqlite_items::Items;
use std::alloc::{AllocError, Global};

/// A polynomial modulo 2 to the width, as its canonical tree.
#[derive(Debug, Drop)]
pub struct Expr {
    pub w: Width,
    pub tree: Tree,
    ghost canonical: { IsCanonical (2 ^ w) (polynomial_of tree) } by { canonical_prop (2 ^ w) (polynomial_of tree) },
}

/// The number modulo 2 to the width.
#[tactic(auto, using(crate::proofs::ListedTrees::polynomial_of_num))]
pub fn num(w: Width, v: u64) -> Expr
    ensures width { result.w ≡ w }
    ensures value { polynomial_of result.tree ≡ number (v % 2 ^ w) }
{
    Expr {
        w,
        tree: Tree::Num(v & w.mask()),
    }
}

/// The symbol of a value.
pub fn sym(alloc: Global, w: Width, x: Label) -> Result<Expr, AllocError>
    ensures width { IfOk result (λ r. r.w ≡ w) }
    ensures symbol { IfOk result (λ r. polynomial_of r.tree ≡ variable (variable_of false x.0)) }
{
    // A width is at least 1, so 1 is one of its numbers.
    let _ = w.bits();
    let mut places = Vec::with_capacity(alloc, 2)?;
    places.push(Tree::Num(0))?;
    places.push(Tree::Num(1))?;
    let tree = Tree::Ext {
        counter: false,
        var: x,
        ops: Items::from_vec(places),
    };
    Ok(Expr { w, tree })
}

/// Whether width and polynomial are equal.
pub fn same(a: &Expr, b: &Expr) -> bool
    ensures { IsTrue result ↔ ((a.now.w ≡ b.now.w) × IsSamePolynomial (polynomial_of a.now.tree)
        (polynomial_of b.now.tree)) }
{
    a.w == b.w && equal_trees(&a.tree, &b.tree)
}

/// The number of monomials; the greatest u32 where there are more.
pub fn size(e: &Expr) -> u32
    ensures { result ≡ min (monomials (polynomial_of e.now.tree)) (2 ^ 32 - 1) }
{
    tree_size(&e.tree)
}

/// The greatest total degree of a monomial; the greatest u32 where it is more.
pub fn degree(e: &Expr) -> u32
    ensures { result ≡ min (total_degree (polynomial_of e.now.tree)) (2 ^ 32 - 1) }
{
    tree_degree(&e.tree)
}

/// `c` times the polynomial.
pub fn scale(alloc: Global, e: &Expr, c: u64) -> Result<Expr, AllocError>
    ensures width { IfOk result (λ r. r.w ≡ e.now.w) }
    ensures scaled { IfOk result (λ r. IsScaled (2 ^ e.now.w) c (polynomial_of r.tree)
        (polynomial_of e.now.tree)) }
{
    let tree = scale_tree(alloc, e.w, &e.tree, c)?;
    Ok(Expr { w: e.w, tree })
}

/// A copy.
pub fn copy(alloc: Global, e: &Expr) -> Result<Expr, AllocError>
    ensures width { IfOk result (λ r. r.w ≡ e.now.w) }
    ensures same { IfOk result (λ r. polynomial_of r.tree ≡ polynomial_of e.now.tree) }
{
    let tree = copy_tree(alloc, &e.tree)?;
    Ok(Expr { w: e.w, tree })
}
