ghost use Rattle.std.specs.Prelude.{◌≡◌, nat_lt};
ghost use Rattle.scev_text.specs.Texts.{is_one as is_one_of, is_sum as is_sum_of, terms_in};
ghost use Rattle.scev_tree.specs.Tree.{polynomial_of, polynomials};

use scev_tree::{Tree, is_zero};

/// Whether the tree is the number 1.
pub(crate) fn is_one(t: &Tree) -> bool
    ensures { result ≡ is_one_of (polynomial_of t.now) }
{
    match t {
        Tree::Num(v) => *v == 1,
        Tree::Ext { .. } => false,
    }
}

/// Whether the tree is a symbol's with more than one place that isn't 0.
pub(crate) fn is_sum(t: &Tree) -> bool
    ensures { result ≡ is_sum_of (polynomial_of t.now) }
{
    match t {
        Tree::Num(_) => false,
        Tree::Ext { counter, ops, .. } => !*counter && has_several_terms(ops.as_slice()),
    }
}

/// Whether more than one of the places isn't 0.
fn has_several_terms(places: &[Tree]) -> bool
    ensures { result ≡ nat_lt 1 (terms_in (polynomials places.now)) }
{
    let mut terms = 0usize;
    for place in places {
        if !is_zero(place) {
            terms += 1;
        }
    }
    terms > 1
}
