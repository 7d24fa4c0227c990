ghost use Rattle.std.specs.Prelude.{◌≡◌, ℕ, IsTrue, ◌↔◌};
ghost use Rattle.scev_tree.specs.Polynomial.{Polynomial, IsUnique};
ghost use Rattle.scev_tree.specs.Tree.{polynomial_of, polynomials};

use crate::tree::Tree;
use crate::variable::Variable;

/// Whether two trees have the same numbers and variables at the same places.
#[cycle(comparing)]
pub fn equal_trees(a: &Tree, b: &Tree) -> bool
    ensures { IsTrue result ↔ (polynomial_of a.now ≡ polynomial_of b.now) }
{
    match a {
        Tree::Num(u) => match b {
            Tree::Num(v) => *u == *v,
            Tree::Ext { .. } => false,
        },
        Tree::Ext { counter, var, ops } => match b {
            Tree::Num(_) => false,
            Tree::Ext {
                counter: other,
                var: to,
                ops: more,
            } => {
                let x = Variable {
                    counter: *counter,
                    label: *var,
                };
                let y = Variable {
                    counter: *other,
                    label: *to,
                };
                x.rank() == y.rank() && equal_places(ops.as_slice(), more.as_slice())
            }
        },
    }
}

#[cycle(comparing)]
fn equal_places(ps: &[Tree], qs: &[Tree]) -> bool
    ensures { IsTrue result ↔ (polynomials ps.now ≡ polynomials qs.now) }
{
    if ps.len() != qs.len() {
        return false;
    }
    for (k, p) in ps.iter().enumerate() {
        if !equal_trees(p, &qs[k]) {
            return false;
        }
    }
    true
}

/// The law of canonical trees: at any modulus, polynomials are equal exactly where their canonical
/// trees are. There is nothing to do: the contract is the law.
pub fn trees_are_unique()
    ensures { (M : ℕ) (p q : Polynomial) → IsUnique M p q }
{}
