ghost use Rattle.std.specs.Prelude.{◌≡◌, ℕ, MatchOption};
ghost use Rattle.fresh_scev.specs.Answers.{facts_shown};
ghost use Rattle.fresh_scev.specs.Expressions.{number_in};
ghost use Rattle.fresh_scev.specs.Facts.{IsFacts};
ghost use Rattle.fresh_scev.specs.Table.{AreKnown};
ghost use Rattle.mlir_ir.specs.Check.{IsWellFormed};
ghost use Rattle.pass_chain.specs.Plans.{IsForWith, IsPlanOf};
ghost use Rattle.scev_tree.specs.Tree.{polynomial_of};
ghost use Rattle.trip_count.specs.declared.answer.Turns.TheVariants.{Count};

use crate::bounds::Bounds;
use arith_word::Label;
use fresh_scev::Facts;
use mlir_ir::Func;
use pass_unroll::Plan;
use scev_tree::{Expr, Tree};
use trip_count::Turns;

/// The number that the expression is.
#[tactic(auto, using(scev_tree::proofs::ListedTrees::polynomial_of_num, scev_tree::proofs::ListedTrees::polynomial_of_ext))]
fn number_of(e: &Expr) -> Option<u64>
    ensures { result ≡ number_in (polynomial_of e.now.tree) }
{
    match &e.tree {
        Tree::Num(v) => Some(*v),
        Tree::Ext { .. } => None,
    }
}

/// The number that the value's expression is.
fn number_at(facts: &Facts, v: Label) -> Option<u64>
    ensures { result ≡ number_in ((facts_shown facts.now).expr v.0).p }
{
    match facts.expr(v) {
        Some(e) => number_of(e),
        None => Some(0),
    }
}

/// The plan of the loop with these bounds; `None` exactly where its trip count is no number.
pub(crate) fn read_plan(facts: &Facts, f: &Func, target: Label, b: Bounds) -> Option<Plan>
    requires formed { IsWellFormed f.now }
    requires facts { IsFacts f.now (facts_shown facts.now) }
    requires known { AreKnown (facts_shown facts.now) }
    requires stands { IsForWith f.now target.0 b }
    ensures { MatchOption result
        ((n : ℕ) → (facts_shown facts.now).turns target.0 ≡ Count n → ⊥)
        (λ plan. IsPlanOf (facts_shown facts.now) f.now target.0 plan) }
{
    let Some(Turns::Count(count)) = facts.turns(target) else {
        return None;
    };
    let Some(lower) = number_at(facts, b.lower) else {
        return None;
    };
    let Some(upper) = number_at(facts, b.upper) else {
        return None;
    };
    let Some(step) = number_at(facts, b.step) else {
        return None;
    };
    Some(Plan {
        lower,
        upper,
        step,
        count: *count,
    })
}
