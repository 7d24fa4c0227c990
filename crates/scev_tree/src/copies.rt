ghost use Rattle.std.specs.Prelude.{◌≡◌, IfOk};
ghost use Rattle.scev_tree.specs.Tree.{polynomial_of, polynomials};

use crate::tree::Tree;
use sqlite_items::Items;
use std::alloc::{AllocError, Global};

/// A copy, which stands for the same polynomial.
#[cycle(copying)]
#[tactic(auto, using(crate::proofs::ListedTrees::polynomial_of_ext, crate::proofs::ListedTrees::polynomial_of_num))]
pub fn copy_tree(alloc: Global, t: &Tree) -> Result<Tree, AllocError>
    ensures { IfOk result (λ r. polynomial_of r ≡ polynomial_of t.now) }
{
    match t {
        Tree::Num(v) => Ok(Tree::Num(*v)),
        Tree::Ext { counter, var, ops } => {
            let places = copy_all(alloc, ops.as_slice())?;
            Ok(Tree::Ext {
                counter: *counter,
                var: *var,
                ops: Items::from_vec(places),
            })
        }
    }
}

#[cycle(copying)]
fn copy_all(alloc: Global, ts: &[Tree]) -> Result<Vec<Tree>, AllocError>
    ensures { IfOk result (λ r. polynomials r.items ≡ polynomials ts.now) }
{
    let mut out = Vec::with_capacity(alloc, ts.len())?;
    for t in ts {
        out.push(copy_tree(alloc, t)?)?;
    }
    Ok(out)
}
