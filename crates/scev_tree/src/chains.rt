ghost use Rattle.std.specs.Prelude.{◌≡◌, true, ◌^◌, IfOk};
ghost use Rattle.scev_tree.specs.Polynomial.{IsBuilt, variable_of};
ghost use Rattle.scev_tree.specs.Tree.{polynomial_of, residues};

use crate::assemble::build;
use crate::expr::Expr;
use crate::tree::Tree;
use crate::variable::Variable;
use arith_word::{Label, Width};
use std::alloc::{AllocError, Global};

/// The chain {p0,+,p1,+,..} of numbers over a counter: its place j belongs to C(n,j).
pub fn chain(alloc: Global, w: Width, counter: Label, places: &[u64]) -> Result<Expr, AllocError>
    ensures width { IfOk result (λ r. r.w ≡ w) }
    ensures chain { IfOk result (λ r. IsBuilt (2 ^ w) (variable_of true counter.0)
        (residues (2 ^ w) places.now) (polynomial_of r.tree)) }
{
    let mut out = Vec::with_capacity(alloc, places.len())?;
    for v in places {
        out.push(Tree::Num(*v & w.mask()))?;
    }
    let x = Variable {
        counter: true,
        label: counter,
    };
    let tree = build(x, out);
    Ok(Expr { w, tree })
}
