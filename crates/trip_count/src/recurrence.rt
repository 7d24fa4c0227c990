ghost use Rattle.std.specs.Prelude.{◌≡◌, ℕ, true, ◌<◌, IfSome};
ghost use Rattle.scev_tree.specs.Polynomial.{variable_of};
ghost use Rattle.scev_tree.specs.Tree.{polynomial_of, polynomials};
ghost use Rattle.trip_count.specs.Shape.{shape_of, shape_of_places, with_step, is_moving as moving_of, numeric as numeric_of, number as number_of, Fits};
ghost use Rattle.trip_count.specs.Shown.{shape_shown};

use arith_word::Label;
use scev_tree::{Tree, Variable};

/// An expression as a recurrence in the iterations of one loop.
#[derive(Clone, Copy)]
pub enum Recurrence<'a> {
    /// `a + b * n`, where all variables of `a` are below the counter.
    Affine(&'a Tree, u64),
    /// `a + b * n`, where `b` is no number.
    SymbolicStep,
    /// A variable above the counter stands in it, or the counter with an index above 1.
    Moving,
}

/// The recurrence of an expression.
#[tactic(auto, using(crate::proofs::PolynomialShapes::polynomial_of_ext, crate::proofs::PolynomialShapes::polynomial_of_num))]
pub fn recurrence_of<'a>(counter: Label, t: &'a Tree) -> Recurrence<'a>
    ensures { shape_shown result ≡ shape_of (variable_of true counter.0) (polynomial_of t.now) }
{
    match t {
        Tree::Num(_) => Recurrence::Affine(t, 0),
        Tree::Ext {
            counter: is,
            var,
            ops,
        } => {
            let x = Variable {
                counter: *is,
                label: *var,
            };
            let y = Variable {
                counter: true,
                label: counter,
            };
            if x.rank() < y.rank() {
                Recurrence::Affine(t, 0)
            } else if x.rank() == y.rank() {
                recurrence_of_places(ops.as_slice())
            } else {
                Recurrence::Moving
            }
        }
    }
}

fn recurrence_of_places<'a>(ts: &'a [Tree]) -> Recurrence<'a>
    ensures { shape_shown result ≡ shape_of_places (polynomials ts.now) }
{
    if ts.len() == 2 {
        start_and_step(&ts[0], &ts[1])
    } else {
        Recurrence::Moving
    }
}

#[tactic(auto, using(crate::proofs::PolynomialShapes::polynomial_of_ext, crate::proofs::PolynomialShapes::polynomial_of_num))]
fn start_and_step<'a>(start: &'a Tree, step: &Tree) -> Recurrence<'a>
    ensures { shape_shown result ≡ with_step (polynomial_of start.now) (polynomial_of step.now) }
{
    match step {
        Tree::Num(b) => Recurrence::Affine(start, *b),
        Tree::Ext { .. } => Recurrence::SymbolicStep,
    }
}

/// `a` and `b` where the recurrence is `a + b * n` with numbers.
#[tactic(auto, using(crate::proofs::PolynomialShapes::polynomial_of_ext, crate::proofs::PolynomialShapes::polynomial_of_num))]
pub fn numeric(l: Recurrence<'_>) -> Option<(u64, u64)>
    ensures value { result ≡ numeric_of (shape_shown l.entry) }
    ensures fits { (M : ℕ) → Fits M (shape_shown l.entry)
        → IfSome result (λ v. (v.0 < M) × (v.1 < M)) }
{
    match l {
        Recurrence::Affine(a, b) => match a {
            Tree::Num(v) => Some((*v, b)),
            Tree::Ext { .. } => None,
        },
        Recurrence::SymbolicStep => None,
        Recurrence::Moving => None,
    }
}

/// The number where the recurrence is one.
#[tactic(auto, using(crate::proofs::PolynomialShapes::polynomial_of_ext, crate::proofs::PolynomialShapes::polynomial_of_num))]
pub fn number(l: Recurrence<'_>) -> Option<u64>
    ensures value { result ≡ number_of (shape_shown l.entry) }
    ensures fits { (M : ℕ) → Fits M (shape_shown l.entry) → IfSome result (λ v. v < M) }
{
    match l {
        Recurrence::Affine(a, b) => match a {
            Tree::Num(v) => { if b == 0 { Some(*v) } else { None } }
            Tree::Ext { .. } => None,
        },
        Recurrence::SymbolicStep => None,
        Recurrence::Moving => None,
    }
}

pub fn is_moving(l: Recurrence<'_>) -> bool
    ensures { result ≡ moving_of (shape_shown l.entry) }
{
    matches!(l, Recurrence::Moving)
}
