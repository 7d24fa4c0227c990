ghost use Rattle.std.specs.Prelude.{IsTrue, ◌↔◌};
ghost use Rattle.chrec_algebra.specs.Limits.{IsWithin};
ghost use Rattle.scev_tree.specs.Tree.{polynomial_of};

use scev_tree::{Expr, degree, size};

/// The greatest number of monomials that an analysis keeps.
pub const MONOMIAL_LIMIT: u32 = 64;

/// The greatest total degree that an analysis keeps.
pub const DEGREE_LIMIT: u32 = 8;

/// Whether the expression is within the limits.
pub fn is_within(e: &Expr) -> bool
    ensures { IsTrue result ↔ IsWithin (polynomial_of e.now.tree) }
{
    size(e) <= MONOMIAL_LIMIT && degree(e) <= DEGREE_LIMIT
}
