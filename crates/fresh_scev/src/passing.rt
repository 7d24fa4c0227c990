ghost use Rattle.std.specs.Prelude.{◌≡◌, ◌+◌, length, OnOk, IfOk};
ghost use Rattle.fresh_scev.specs.Expressions.{expression_of, IsBefore};
ghost use Rattle.fresh_scev.specs.Facts.{ArePassed};
ghost use Rattle.fresh_scev.specs.Table.{facts_of, next_label, AreKnown, HasRoom};
ghost use Rattle.fresh_scev.specs.UsesBelow.{AreBelow};
ghost use Rattle.fresh_scev.specs.Walked.{Says};

use crate::growth::define;
use crate::lookup::zero;
use crate::operands::copied;
use crate::owns::define_own;
use crate::table::Table;
use arith_word::Label;
use mlir_ir::IrType;
use scev_tree::Expr;
use std::alloc::AllocError;

// A copy of the expression of a value.
#[tactic(auto, using(crate::proofs::OperandBounds::operand))]
fn passed_expr(t: &Table, passed: Label) -> Result<Expr, AllocError>
    requires known { AreKnown (facts_of t.now) }
    ensures passed { IfOk result (λ e. expression_of e ≡ (facts_of t.now).expr passed.0) }
    ensures before { IfOk result (λ e. IsBefore (passed.0 + 1) (expression_of e)) }
{
    let zero = zero();
    Ok(copied(t.alloc, t.expr(passed, &zero))?)
}

/// Defines the parameters of an after region, which are the passed values.
#[tactic(auto, using(crate::proofs::ListedValues::first_passed, crate::proofs::ListedValues::none_said, crate::proofs::ListedValues::later_below, crate::proofs::ListedValues::passed_before, crate::proofs::GrowingTables::room_later))]
pub(crate) fn define_passed(
    t: &mut Table,
    tys: &[IrType],
    passed: &[Label],
) -> Result<(), AllocError>
    requires room { HasRoom t.old (length tys.now) }
    requires known { AreKnown (facts_of t.old) }
    requires passed { AreBelow passed.now (next_label t.old) }
    ensures { OnOk result (Says t.old t.new (length tys.now)
        (λ F. ArePassed F (next_label t.old) tys.now passed.now)) }
{
    let Some((_, rest)) = tys.split_first() else {
        return Ok(());
    };
    let Some((value, more)) = passed.split_first() else {
        return define_own(t, tys);
    };
    let expr = passed_expr(t, *value)?;
    define(t, expr, None)?;
    define_passed(t, rest, more)
}
