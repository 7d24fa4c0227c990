ghost use Rattle.std.specs.Prelude.{◌≡◌, ℕ, true, false, suc, ◌<◌, ◌^◌, IfOk, IsTrue, ◌↔◌};
ghost use Rattle.phi_solve.specs.Step.{IsSolved, IsChain};
ghost use Rattle.scev_tree.specs.Polynomial.{num, Under, IsCanonical, variable_of};
ghost use Rattle.scev_tree.specs.Side.{IsSide};
ghost use Rattle.scev_tree.specs.Tree.{polynomial_of, polynomials};

use arith_word::{Label, Width};
use scev_tree::{Expr, Tree, Variable, build, copy_tree};
use std::alloc::{AllocError, Global};
use std::slice;

/// What a loop argument is: an expression, or not one that is found.
#[derive(Debug, Drop)]
pub enum Solved {
    As(Expr),
    Not,
}

#[tactic(auto, using(crate::proofs::StepTrees::polynomial_of_ext, crate::proofs::StepTrees::polynomial_of_num))]
fn is_one(t: &Tree) -> bool
    ensures { IsTrue result ↔ (polynomial_of t.now ≡ num 1) }
{
    match t {
        Tree::Num(v) => *v == 1,
        Tree::Ext { .. } => false,
    }
}

/// Whether all variables are at most the counter.
#[tactic(auto, using(crate::proofs::StepTrees::polynomial_of_ext, crate::proofs::StepTrees::polynomial_of_num))]
pub fn is_low(t: &Tree, counter: Label) -> bool
    ensures { IsTrue result ↔ Under (polynomial_of t.now) (suc (variable_of true counter.0)) }
{
    match t {
        Tree::Num(_) => true,
        Tree::Ext {
            counter: is,
            var,
            ..
        } => {
            let x = Variable {
                counter: *is,
                label: *var,
            };
            x.rank() <= Variable::counter_of(counter).rank()
        }
    }
}

/// Whether all variables are below the counter.
#[tactic(auto, using(crate::proofs::StepTrees::polynomial_of_ext, crate::proofs::StepTrees::polynomial_of_num))]
pub fn is_below(t: &Tree, counter: Label) -> bool
    ensures { IsTrue result ↔ Under (polynomial_of t.now) (variable_of true counter.0) }
{
    match t {
        Tree::Num(_) => true,
        Tree::Ext {
            counter: is,
            var,
            ..
        } => {
            let x = Variable {
                counter: *is,
                label: *var,
            };
            x.rank() < Variable::counter_of(counter).rank()
        }
    }
}

/// The initial value plus the sum of the step over the iterations so far, as a chain over the
/// counter. The induction variable of a loop is that of its lower bound and its step.
pub fn add_recurrence(
    alloc: Global,
    init: &Expr,
    step: &Expr,
    counter: Label,
) -> Result<Expr, AllocError>
    requires widths { init.now.w ≡ step.now.w }
    requires below { Under (polynomial_of init.now.tree) (variable_of true counter.0) }
    requires low { Under (polynomial_of step.now.tree) (suc (variable_of true counter.0)) }
    ensures width { IfOk result (λ r. r.w ≡ init.now.w) }
    ensures chain { IfOk result (λ r. IsChain (2 ^ init.now.w) (variable_of true counter.0)
        (polynomial_of r.tree) (polynomial_of init.now.tree) (polynomial_of step.now.tree)) }
{
    let tree = sum_over_turns(alloc, init.w, counter, &init.tree, &step.tree)?;
    Ok(Expr { w: init.w, tree })
}

/// The argument of a loop, from its yielded and initial values: `As` exactly where the yielded value
/// is the argument plus p with all variables of p at most the counter, and then it is the initial
/// value plus the sum of p over the turns so far.
pub fn recur(
    alloc: Global,
    yielded: &Expr,
    init: &Expr,
    arg: Label,
    counter: Label,
) -> Result<Solved, AllocError>
    requires widths { yielded.now.w ≡ init.now.w }
    requires order { variable_of true counter.0 < variable_of false arg.0 }
    requires below { Under (polynomial_of init.now.tree) (variable_of true counter.0) }
    ensures { IfOk result (λ s. IsSolved yielded.now.w (variable_of false arg.0)
        (variable_of true counter.0) (polynomial_of yielded.now.tree)
        (polynomial_of init.now.tree) s) }
{
    // A width is at least 1, so 1 is one of its numbers.
    let _ = yielded.w.bits();
    match &yielded.tree {
        Tree::Num(_) => Ok(Solved::Not),
        Tree::Ext {
            counter: is,
            var,
            ops,
        } => {
            let x = Variable {
                counter: *is,
                label: *var,
            };
            if x.rank() != Variable::symbol_of(arg).rank() {
                return Ok(Solved::Not);
            }
            match ops.as_slice() {
                [p, one] => {
                    if !is_one(one) {
                        return Ok(Solved::Not);
                    }
                    if !is_low(p, counter) {
                        return Ok(Solved::Not);
                    }
                    let tree = sum_over_turns(alloc, yielded.w, counter, &init.tree, p)?;
                    Ok(Solved::As(Expr { w: yielded.w, tree }))
                }
                _ => Ok(Solved::Not),
            }
        }
    }
}

// init, and the places of p after it.
fn sum_over_turns(
    alloc: Global,
    w: Width,
    counter: Label,
    init: &Tree,
    p: &Tree,
) -> Result<Tree, AllocError>
    requires left { IsCanonical (2 ^ w) (polynomial_of init.now) }
    requires right { IsCanonical (2 ^ w) (polynomial_of p.now) }
    requires below { Under (polynomial_of init.now) (variable_of true counter.0) }
    requires low { Under (polynomial_of p.now) (suc (variable_of true counter.0)) }
    ensures { IfOk result (λ r. IsChain (2 ^ w) (variable_of true counter.0) (polynomial_of r)
        (polynomial_of init.now) (polynomial_of p.now)) }
{
    let _ = w;
    let mut out = Vec::new(alloc);
    out.push(copy_tree(alloc, init)?)?;
    for t in places_of(p, counter) {
        out.push(copy_tree(alloc, t)?)?;
    }
    let x = Variable {
        counter: true,
        label: counter,
    };
    Ok(build(x, out))
}

// The places of p as a polynomial in the counter.
fn places_of<'a>(p: &'a Tree, counter: Label) -> &'a [Tree]
    requires { Under (polynomial_of p.now) (suc (variable_of true counter.0)) }
    ensures { IsSide (variable_of true counter.0) (polynomials result.now) (polynomial_of p.now) }
{
    match p {
        Tree::Num(_) => slice::from_ref(p),
        Tree::Ext {
            counter: is,
            var,
            ops,
        } => {
            let x = Variable {
                counter: *is,
                label: *var,
            };
            if x.rank() == Variable::counter_of(counter).rank() {
                return ops.as_slice();
            }
            slice::from_ref(p)
        }
    }
}
