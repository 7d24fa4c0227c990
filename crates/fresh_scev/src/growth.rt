ghost use Rattle.std.specs.Prelude.{◌≡◌, ◌+◌, OnOk};
ghost use Rattle.fresh_scev.specs.Expressions.{expression_of, IsBefore};
ghost use Rattle.fresh_scev.specs.SameFacts.{IsTestBelow};
ghost use Rattle.fresh_scev.specs.Table.{facts_of, next_label, role_by, AreKnown, Defines, HasRoom};

use crate::fact::{Comparison, Fact};
use crate::table::Table;
use scev_tree::Expr;
use std::alloc::AllocError;

/// Adds a value with its expression and the comparison whose result it is.
#[tactic(auto, using(crate::proofs::TableGrowth::push_defines))]
pub(crate) fn define(t: &mut Table, expr: Expr, test: Option<Comparison>) -> Result<(), AllocError>
    requires room { HasRoom t.old 1 }
    requires known { AreKnown (facts_of t.old) }
    requires before { IsBefore (next_label t.old + 1) (expression_of expr) }
    requires below { IsTestBelow (role_by test) (next_label t.old) }
    ensures { OnOk result (Defines t.old t.new (expression_of expr) (role_by test)) }
{
    t.push(Fact::Value(expr, test))
}
