ghost use Rattle.std.specs.Prelude.{◌≡◌, ℕ, IsTrue, ◌↔◌};
ghost use Rattle.scev_tree.specs.Polynomial.{num};
ghost use Rattle.scev_tree.specs.Tree.{polynomial_of, IsMainVariable};

use arith_word::Label;
use sqlite_items::Items;

/// A number, or a polynomial in one variable whose coefficients have smaller variables: the place j
/// of `ops` belongs to x^j for a symbol x, and to C(n,j) for a counter whose turn is n.
#[derive(Debug, Drop)]
pub enum Tree {
    Num(u64),
    Ext {
        counter: bool,
        var: Label,
        ops: Items<Tree>,
    },
}

/// Whether the tree is the number 0.
#[tactic(auto, using(crate::proofs::ListedTrees::polynomial_of_ext, crate::proofs::ListedTrees::polynomial_of_num))]
pub fn is_zero(t: &Tree) -> bool
    ensures { IsTrue result ↔ (polynomial_of t.now ≡ num 0) }
{
    match t {
        Tree::Num(v) => *v == 0,
        Tree::Ext { .. } => false,
    }
}

/// The label of the greatest variable; `None` exactly for a number.
pub fn main_var(t: &Tree) -> Option<Label>
    ensures { IsMainVariable result (polynomial_of t.now) }
{
    match t {
        Tree::Num(_) => None,
        Tree::Ext { var, .. } => Some(*var),
    }
}
