ghost use Rattle.std.specs.Prelude.{◌+◌, ◌<◌, length, OnOk, IfOk};
ghost use Rattle.fresh_scev.specs.Expressions.{expression_of, IsBefore};
ghost use Rattle.fresh_scev.specs.Facts.{AreMerged};
ghost use Rattle.fresh_scev.specs.Rules.{have_width as width_had, fitting, IsMerged};
ghost use Rattle.fresh_scev.specs.Table.{facts_of, next_label, AreKnown, HasRoom};
ghost use Rattle.fresh_scev.specs.UsesBelow.{AreBelow};
ghost use Rattle.fresh_scev.specs.Walked.{Says};

use crate::defined::Defined;
use crate::growth::define;
use crate::lookup::zero;
use crate::owns::define_own;
use crate::rules::merged_expr;
use crate::simple::defined_next;
use crate::table::Table;
use arith_word::Label;
use mlir_ir::IrType;
use scev_tree::Expr;
use std::alloc::AllocError;

#[tactic(auto, using(crate::proofs::OperandBounds::operand))]
fn merged_rule(t: &Table, start: Label, d: Defined, a: Label, b: Label) -> Result<Expr, AllocError>
    requires known { AreKnown (facts_of t.now) }
    requires first { a.0 < d.label.0 }
    ensures rule { IfOk result (λ e. fitting (width_had d.w ((facts_of t.now).expr a.0)
        ((facts_of t.now).expr b.0)) d.w d.label.0 (expression_of e) (IsMerged start.0 d.w d.label.0
        ((facts_of t.now).expr a.0) ((facts_of t.now).expr b.0) (expression_of e))) }
    ensures before { IfOk result (λ e. IsBefore (d.label.0 + 1) (expression_of e)) }
{
    let zero = zero();
    Ok(merged_expr(t.alloc, start, d, t.expr(a, &zero), t.expr(b, &zero))?)
}

/// Defines the results of an `scf.if` that begins with the label `start`, by what its regions
/// yield.
#[tactic(auto, using(crate::proofs::ListedValues::first_merged, crate::proofs::ListedValues::none_said, crate::proofs::ListedValues::later_below, crate::proofs::GrowingTables::room_later))]
pub(crate) fn define_merged(
    t: &mut Table,
    start: Label,
    tys: &[IrType],
    firsts: &[Label],
    others: &[Label],
) -> Result<(), AllocError>
    requires room { HasRoom t.old (length tys.now) }
    requires known { AreKnown (facts_of t.old) }
    requires firsts { AreBelow firsts.now (next_label t.old) }
    requires others { AreBelow others.now (next_label t.old) }
    ensures { OnOk result (Says t.old t.new (length tys.now)
        (λ F. AreMerged F start.0 (next_label t.old) tys.now firsts.now others.now)) }
{
    let Some((ty, rest)) = tys.split_first() else {
        return Ok(());
    };
    let Some((a, more_firsts)) = firsts.split_first() else {
        return define_own(t, tys);
    };
    let Some((b, more_others)) = others.split_first() else {
        return define_own(t, tys);
    };
    let d = defined_next(t, *ty);
    let expr = merged_rule(t, start, d, *a, *b)?;
    define(t, expr, None)?;
    define_merged(t, start, rest, more_firsts, more_others)
}
