ghost use Rattle.std.specs.Prelude.{◌≡◌};
ghost use Rattle.chrec_algebra.specs.Align.{IsAligned};
ghost use Rattle.scev_tree.specs.Tree.{polynomial_of};

use scev_tree::{Tree, Variable};
use std::slice;

/// Two trees as two numbers, or as the places of one variable, the greater of the two.
pub enum Aligned<'a> {
    Numbers(u64, u64),
    Places {
        x: Variable,
        left: &'a [Tree],
        right: &'a [Tree],
    },
}

#[tactic(auto, using(crate::proofs::Sides::polynomial_of_ext, crate::proofs::Sides::polynomial_of_num))]
pub fn align<'a>(a: &'a Tree, b: &'a Tree) -> Aligned<'a>
    ensures { IsAligned result (polynomial_of a.now) (polynomial_of b.now) }
{
    match a {
        Tree::Num(u) => match b {
            Tree::Num(v) => Aligned::Numbers(*u, *v),
            Tree::Ext { counter, var, ops } => Aligned::Places {
                x: Variable {
                    counter: *counter,
                    label: *var,
                },
                left: slice::from_ref(a),
                right: ops.as_slice(),
            },
        },
        Tree::Ext { counter, var, ops } => {
            let x = Variable {
                counter: *counter,
                label: *var,
            };
            match b {
                Tree::Num(_) => Aligned::Places {
                    x,
                    left: ops.as_slice(),
                    right: slice::from_ref(b),
                },
                Tree::Ext {
                    counter: other,
                    var: to,
                    ops: more,
                } => {
                    let y = Variable {
                        counter: *other,
                        label: *to,
                    };
                    if x.rank() < y.rank() {
                        Aligned::Places {
                            x: y,
                            left: slice::from_ref(a),
                            right: more.as_slice(),
                        }
                    } else if y.rank() < x.rank() {
                        Aligned::Places {
                            x,
                            left: ops.as_slice(),
                            right: slice::from_ref(b),
                        }
                    } else {
                        Aligned::Places {
                            x,
                            left: ops.as_slice(),
                            right: more.as_slice(),
                        }
                    }
                }
            }
        }
    }
}
