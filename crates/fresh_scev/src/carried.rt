ghost use Rattle.std.specs.Prelude.{◌+◌, ◌<◌, ◌≤◌, length, OnOk, IfOk};
ghost use Rattle.fresh_scev.specs.Expressions.{expression_of, IsBefore};
ghost use Rattle.fresh_scev.specs.Facts.{AreCarried, ArePassedOn};
ghost use Rattle.fresh_scev.specs.LoopResults.{IsCarried};
ghost use Rattle.fresh_scev.specs.Table.{facts_of, next_label, AreKnown, HasRoom};
ghost use Rattle.fresh_scev.specs.UsesBelow.{AreBelow};
ghost use Rattle.fresh_scev.specs.Walked.{Says};

use crate::defined::Defined;
use crate::growth::define;
use crate::guards::is_proved;
use crate::lookup::zero;
use crate::owns::define_own;
use crate::results::result_expr;
use crate::simple::defined_next;
use crate::table::Table;
use arith_word::Label;
use mlir_ir::IrType;
use scev_tree::Expr;
use std::alloc::AllocError;
use trip_count::{Turns, Why};

// A result of the loop, by the value that is carried to it.
fn carried_rule(t: &Table, counter: Label, d: Defined, from: Label) -> Result<Expr, AllocError>
    requires known { AreKnown (facts_of t.now) }
    requires order { counter.0 < d.label.0 }
    ensures rule { IfOk result (λ e. IsCarried (facts_of t.now) t.now.conditions.items
        counter.0 d.w d.label.0 from.0 (expression_of e)) }
    ensures before { IfOk result (λ e. IsBefore (d.label.0 + 1) (expression_of e)) }
{
    let zero = zero();
    let unknown = Turns::Unknown(Why::NotACompare);
    let turns = t.turns(counter, &unknown);
    let proved = is_proved(t, t.conditions.as_slice(), turns);
    Ok(result_expr(t.alloc, counter, d, turns, proved, t.expr(from, &zero))?)
}

/// Defines the results of the loop with this counter, of which the values from label `from` on are
/// the last arguments.
#[tactic(auto, using(crate::proofs::ListedValues::none_said, crate::proofs::ListedValues::later_label, crate::proofs::ListedValues::later_labels, crate::proofs::ListedValues::later_conditions, crate::proofs::GrowingTables::room_later))]
pub(crate) fn define_carried(
    t: &mut Table,
    counter: Label,
    from: Label,
    tys: &[IrType],
) -> Result<(), AllocError>
    requires room { HasRoom t.old (length tys.now) }
    requires known { AreKnown (facts_of t.old) }
    requires order { counter.0 < next_label t.old }
    requires from { from.0 + length tys.now ≤ next_label t.old }
    requires conditions { AreBelow t.old.conditions.items (next_label t.old) }
    ensures { OnOk result (Says t.old t.new (length tys.now) (λ F. AreCarried F
        t.old.conditions.items counter.0 from.0 (next_label t.old) tys.now)) }
{
    let Some((ty, rest)) = tys.split_first() else {
        return Ok(());
    };
    let d = defined_next(t, *ty);
    let expr = carried_rule(t, counter, d, from)?;
    define(t, expr, None)?;
    define_carried(t, counter, Label(from.0 + 1), rest)
}

/// Defines the results of the loop with this counter, of which these values are passed.
#[tactic(auto, using(crate::proofs::ListedValues::none_said, crate::proofs::ListedValues::later_label, crate::proofs::ListedValues::later_below, crate::proofs::ListedValues::later_conditions, crate::proofs::GrowingTables::room_later))]
pub(crate) fn define_passed_on(
    t: &mut Table,
    counter: Label,
    passed: &[Label],
    tys: &[IrType],
) -> Result<(), AllocError>
    requires room { HasRoom t.old (length tys.now) }
    requires known { AreKnown (facts_of t.old) }
    requires order { counter.0 < next_label t.old }
    requires passed { AreBelow passed.now (next_label t.old) }
    requires conditions { AreBelow t.old.conditions.items (next_label t.old) }
    ensures { OnOk result (Says t.old t.new (length tys.now) (λ F. ArePassedOn F
        t.old.conditions.items counter.0 passed.now (next_label t.old) tys.now)) }
{
    let Some((ty, rest)) = tys.split_first() else {
        return Ok(());
    };
    let Some((value, more)) = passed.split_first() else {
        return define_own(t, tys);
    };
    let d = defined_next(t, *ty);
    let expr = carried_rule(t, counter, d, *value)?;
    define(t, expr, None)?;
    define_passed_on(t, counter, more, rest)
}
