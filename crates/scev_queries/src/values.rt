ghost use Rattle.std.specs.Prelude.{◌≡◌, ◌+◌, slice_get, true, false, IfOk, IfSome, MatchOption, None, Some};
ghost use Rattle.chrec_algebra.specs.Limits.{IsWithin};
ghost use Rattle.fresh_scev.specs.Answers.{facts_shown};
ghost use Rattle.fresh_scev.specs.Expressions.{Expression, counter, expression_of};
ghost use Rattle.mlir_ir.specs.Loops.{func_loops};
ghost use Rattle.scev_queries.specs.Answers.{line_of, refused, granted, value_label, expression_text, IsExpressionOf, IsAtLoop, VariesIn};
ghost use Rattle.scev_queries.specs.Kept.{IsKnown};
ghost use Rattle.scev_queries.specs.Shown.{shown};
ghost use Rattle.scev_script.specs.declared.reply.RefusalName.TheVariants.{NoLoop, NoValue};
ghost use Rattle.scev_script.specs.declared.reply.Reply.TheVariants.{Held};
ghost use Rattle.scev_text.specs.Texts.{expr_text};
ghost use Rattle.scev_tree.specs.Polynomial.{Under};
ghost use Rattle.scev_tree.specs.Tree.{polynomial_of};

use crate::ask::Ask;
use crate::known::Known;
use crate::lines::line_reply;
use arith_word::Label;
use chrec_algebra::at as at_iteration;
use mlir_ir::LoopLabels;
use scev_script::{RefusalName, Reply, ValueName};
use scev_text::push_expr;
use scev_tree::{Expr, Tree, Variable, copy};
use std::alloc::{AllocError, Global};

/// A value of a function, by its label, with its expression.
#[derive(Clone, Copy)]
struct Found<'a> {
    label: Label,
    expr: &'a Expr,
}

/// The value of that name; `None` exactly where there is none.
fn find<'a>(known: &'a Known<'_>, value: &ValueName) -> Option<Found<'a>>
    requires { IsKnown known.now }
    ensures label { MatchOption result (value_label known.now.func.now value.now ≡ None)
        (λ found. value_label known.now.func.now value.now ≡ Some found.label.0) }
    ensures expr { IfSome result (λ found.
        IsExpressionOf known.now.func.now found.label.0 (expression_of found.expr.now)) }
    ensures within { IfSome result (λ found. IsWithin (polynomial_of found.expr.now.tree)) }
{
    let label = known
        .names
        .value(value.name.as_bytes(), value.nth, value.result)?;
    match known.facts.expr(label) {
        Some(expr) => Some(Found { label, expr }),
        None => unreachable!(),
    }
}

/// The reply of an expression.
fn expr_line(alloc: Global, known: &Known<'_>, e: &Expr) -> Result<Reply, AllocError>
    ensures { IfOk result (λ reply. reply ≡ line_of (expr_text known.now.names e.now)) }
{
    let mut line = String::new(alloc);
    push_expr(&mut line, &known.names, e)?;
    Ok(line_reply(line)?)
}

/// What is said of the expression of that value of the function. An error comes only where memory
/// runs out.
pub fn scev(alloc: Global, known: &Known<'_>, value: &ValueName) -> Result<Ask, AllocError>
    requires { IsKnown known.now }
    ensures { IfOk result (λ ask. MatchOption (value_label known.now.func.now value.now)
        (shown ask ≡ refused NoValue)
        (λ label. (e : Expression) × IsExpressionOf known.now.func.now label e
        × (shown ask ≡ granted (line_of (expression_text known.now.func.now e)) e))) }
{
    let Some(found) = find(known, value) else {
        return Ok(Ask::Refused(RefusalName::NoValue));
    };
    let reply = expr_line(alloc, known, found.expr)?;
    Ok(Ask::Granted(reply, copy(alloc, found.expr)?))
}

/// The expression of that value of the function, which is to be held. An error comes only where
/// memory runs out.
pub fn hold(alloc: Global, known: &Known<'_>, value: &ValueName) -> Result<Ask, AllocError>
    requires { IsKnown known.now }
    ensures { IfOk result (λ ask. MatchOption (value_label known.now.func.now value.now)
        (shown ask ≡ refused NoValue)
        (λ label. (e : Expression) × IsExpressionOf known.now.func.now label e
        × (shown ask ≡ granted Held e))) }
{
    let Some(found) = find(known, value) else {
        return Ok(Ask::Refused(RefusalName::NoValue));
    };
    Ok(Ask::Granted(Reply::Held, copy(alloc, found.expr)?))
}

/// Whether no variable of the expression is greater than the counter of a loop.
fn is_under(tree: &Tree, loop_counter: Label) -> bool
    ensures yes { result ≡ true → Under (polynomial_of tree.now) (counter loop_counter.0 + 1) }
    ensures no { result ≡ false → Under (polynomial_of tree.now) (counter loop_counter.0 + 1) → ⊥ }
{
    match tree {
        Tree::Num(_) => true,
        Tree::Ext { counter, var, .. } => {
            let main = Variable {
                counter: *counter,
                label: *var,
            };
            main.rank() <= Variable::counter_of(loop_counter).rank()
        }
    }
}

/// Whether the value is defined inside the loop, and its expression has no variable greater than
/// the loop's counter.
fn varies_in(labels: LoopLabels, found: &Found<'_>) -> bool
    ensures yes { result ≡ true
        → VariesIn labels found.now.label.0 (expression_of found.now.expr.now) }
    ensures no { result ≡ false
        → VariesIn labels found.now.label.0 (expression_of found.now.expr.now) → ⊥ }
{
    labels.counter < found.label
        && found.label < labels.behind
        && is_under(&found.expr.tree, labels.counter)
}

/// The expression of a value at iteration `n` of a loop, where the value varies in the loop.
fn at_loop(
    alloc: Global,
    known: &Known<'_>,
    found: &Found<'_>,
    labels: LoopLabels,
    n: u64,
) -> Result<Ask, AllocError>
    requires known { IsKnown known.now }
    requires expr { IsExpressionOf known.now.func.now found.now.label.0
        (expression_of found.now.expr.now) }
    requires within { IsWithin (polynomial_of found.now.expr.now.tree) }
    ensures { IfOk result (λ ask.
        IsAtLoop known.now.func.now found.now.label.0 n labels (shown ask)) }
{
    if !varies_in(labels, found) {
        return Ok(Ask::Refused(RefusalName::NotInLoop));
    }
    let e = at_iteration(alloc, found.expr, labels.counter, n)?;
    let reply = expr_line(alloc, known, &e)?;
    Ok(Ask::Granted(reply, e))
}

/// What is said of the expression of that value of the function at iteration `n` of that loop. An
/// error comes only where memory runs out.
pub fn at(
    alloc: Global,
    known: &Known<'_>,
    value: &ValueName,
    number: u16,
    n: u64,
) -> Result<Ask, AllocError>
    requires { IsKnown known.now }
    ensures { IfOk result (λ ask. MatchOption (value_label known.now.func.now value.now)
        (shown ask ≡ refused NoValue)
        (λ label. MatchOption (slice_get (func_loops known.now.func.now) number)
        (shown ask ≡ refused NoLoop)
        (λ l. IsAtLoop known.now.func.now label n l (shown ask)))) }
{
    let Some(found) = find(known, value) else {
        return Ok(Ask::Refused(RefusalName::NoValue));
    };
    let Some(labels) = known.names.loop_labels(number as usize) else {
        return Ok(Ask::Refused(RefusalName::NoLoop));
    };
    Ok(at_loop(alloc, known, &found, labels, n)?)
}
