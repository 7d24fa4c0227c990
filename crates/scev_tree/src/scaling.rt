ghost use Rattle.std.specs.Prelude.{◌≡◌, ℕ, ◌^◌, IfOk};
ghost use Rattle.scev_tree.specs.Polynomial.{IsCanonical, AreCanonical, IsScaled};
ghost use Rattle.scev_tree.specs.Tree.{polynomial_of, polynomials, Each};

use crate::assemble::build;
use crate::tree::Tree;
use crate::variable::Variable;
use arith_word::{Width, mul};
use std::alloc::{AllocError, Global};

/// `c` times the polynomial, modulo 2 to the width `w`, from a tree of any width.
#[cycle(scaling)]
pub fn scale_tree(alloc: Global, w: Width, t: &Tree, c: u64) -> Result<Tree, AllocError>
    requires { (K : ℕ) × IsCanonical K (polynomial_of t.now) }
    ensures { IfOk result (λ r. IsScaled (2 ^ w) c (polynomial_of r) (polynomial_of t.now)) }
{
    match t {
        Tree::Num(v) => Ok(Tree::Num(mul(w, c, *v))),
        Tree::Ext { counter, var, ops } => {
            let places = scale_all(alloc, w, ops.as_slice(), c)?;
            let x = Variable {
                counter: *counter,
                label: *var,
            };
            Ok(build(x, places))
        }
    }
}

#[cycle(scaling)]
fn scale_all(alloc: Global, w: Width, ts: &[Tree], c: u64) -> Result<Vec<Tree>, AllocError>
    requires { (K : ℕ) × (x : ℕ) × AreCanonical K (polynomials ts.now) x }
    ensures { IfOk result (λ r. Each (IsScaled (2 ^ w) c) (polynomials r.items)
        (polynomials ts.now)) }
{
    let mut out = Vec::with_capacity(alloc, ts.len())?;
    for t in ts {
        out.push(scale_tree(alloc, w, t, c)?)?;
    }
    Ok(out)
}
