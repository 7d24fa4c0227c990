ghost use Rattle.std.specs.Prelude.{◌≡◌, ◌+◌, ◌-◌, ◌^◌, min};
ghost use Rattle.scev_tree.specs.Measure.{monomials, monomials_in, total_degree, total_degree_from, degree_in_place};
ghost use Rattle.scev_tree.specs.Tree.{polynomial_of, polynomials};

use crate::tree::{Tree, is_zero};

/// The number of monomials; the greatest u32 where there are more.
#[cycle(sizing)]
pub fn tree_size(t: &Tree) -> u32
    ensures { result ≡ min (monomials (polynomial_of t.now)) (2 ^ 32 - 1) }
{
    match t {
        Tree::Num(v) => { if *v == 0 { 0 } else { 1 } }
        Tree::Ext { ops, .. } => size_all(ops.as_slice()),
    }
}

#[cycle(sizing)]
fn size_all(ts: &[Tree]) -> u32
    ensures { result ≡ min (monomials_in (polynomials ts.now)) (2 ^ 32 - 1) }
{
    let mut count = 0u32;
    for t in ts {
        count = count.saturating_add(tree_size(t));
    }
    count
}

/// The greatest total degree of a monomial; the greatest u32 where it is more.
#[cycle(grading)]
#[tactic(auto, using(crate::proofs::ListedTrees::polynomial_of_num))]
pub fn tree_degree(t: &Tree) -> u32
    ensures { result ≡ min (total_degree (polynomial_of t.now)) (2 ^ 32 - 1) }
{
    match t {
        Tree::Num(_) => 0,
        Tree::Ext { ops, .. } => degree_of_places(ops.as_slice()),
    }
}

#[cycle(grading)]
fn degree_of_places(ts: &[Tree]) -> u32
    ensures { result ≡ min (total_degree_from (polynomials ts.now) 0) (2 ^ 32 - 1) }
{
    let mut greatest = 0u32;
    let mut index = 0u32;
    for t in ts {
        greatest = greatest.max(degree_of_place(t, index));
        index = index.saturating_add(1);
    }
    greatest
}

#[cycle(grading)]
fn degree_of_place(t: &Tree, index: u32) -> u32
    ensures { result ≡ min (degree_in_place (polynomial_of t.now) index) (2 ^ 32 - 1) }
{
    if is_zero(t) {
        0
    } else {
        index.saturating_add(tree_degree(t))
    }
}
