ghost use Rattle.std.specs.Prelude.{◌≡◌, ◌+◌, ◌<◌, ◌≤◌, ◌^◌, length, OnOk, IfOk};
ghost use Rattle.arith_word.specs.Labels.{label_at};
ghost use Rattle.mlir_ir.specs.Rules.{arg_types};
ghost use Rattle.fresh_scev.specs.Facts.{AreOwn, ArePassed};
ghost use Rattle.fresh_scev.specs.Heads.{AreArguments, AreReady, Begins, CanWalk, EndsFor, EndsWhile, GoesOnFor, GoesOnWhile, HasBegun, HasVariable, IsCounter, first_of_for, first_of_while};
ghost use Rattle.fresh_scev.specs.Table.{facts_of, next_label, AreKnown, HasRoom};
ghost use Rattle.fresh_scev.specs.UsesBelow.{AreBelow};
ghost use Rattle.fresh_scev.specs.declared.table.Table.{Table as Tables};
ghost use Rattle.fresh_scev.specs.Walked.{Says};

use crate::carried::{define_carried, define_passed_on};
use crate::counting::{for_turns, while_turns};
use crate::entering::settle;
use crate::given::define_given;
use crate::heads::{Arguments, ForHead, WhileHead};
use crate::next::{Header, Next, next_arguments};
use crate::owns::define_own;
use crate::parts::types_of;
use crate::passing::define_passed;
use crate::table::Table;
use crate::variables::define_variable;
use arith_word::Label;
use mlir_ir::IrType;
use std::alloc::AllocError;

/// Defines the arguments of a loop.
#[tactic(auto, using(crate::proofs::OpenedLoops::given_arguments))]
pub(crate) fn define_arguments(
    t: &mut Table,
    types: &[IrType],
    args: Arguments,
) -> Result<(), AllocError>
    requires room { HasRoom t.old (length types.now) }
    requires known { AreKnown (facts_of t.old) }
    requires ready { AreReady (next_label t.old) types.now args }
    ensures { OnOk result (Says t.old t.new (length types.now)
        (λ F. AreArguments F (next_label t.old) types.now args)) }
{
    match args {
        Arguments::Own => define_own(t, types),
        Arguments::Given(exprs) => define_given(t, exprs),
    }
}

/// Defines the induction variable and the arguments of an `scf.for`.
fn enter_for(
    t: &mut Table,
    h: &ForHead,
    types: &[IrType],
    args: Arguments,
) -> Result<(), AllocError>
    requires room { HasRoom t.old (1 + length types.now) }
    requires known { AreKnown (facts_of t.old) }
    requires place { next_label t.old ≡ h.now.counter.0 + 1 }
    requires lower { h.now.lower.0 < h.now.counter.0 }
    requires step { h.now.step.0 < h.now.counter.0 }
    requires ready { AreReady (first_of_for h.now) types.now args }
    ensures { OnOk result (Says t.old t.new (1 + length types.now)
        (HasVariable h.now (λ F. AreArguments F (first_of_for h.now) types.now args))) }
{
    define_variable(t, h.counter, h.iv.ty, h.lower, h.step)?;
    define_arguments(t, types, args)
}

/// Begins the first round of an `scf.for`.
pub(crate) fn begin_for(t: &mut Table, h: &ForHead) -> Result<(), AllocError>
    requires room { HasRoom t.old (1 + length h.now.args.now) }
    requires known { AreKnown (facts_of t.old) }
    requires place { next_label t.old ≡ h.now.counter.0 + 1 }
    requires lower { h.now.lower.0 < h.now.counter.0 }
    requires step { h.now.step.0 < h.now.counter.0 }
    ensures { OnOk result (Says t.old t.new (1 + length h.now.args.now)
        (HasVariable h.now (λ F. AreOwn F (first_of_for h.now) (arg_types h.now.args.now)))) }
{
    let types = types_of(t.alloc, h.args)?;
    enter_for(t, h, &types, Arguments::Own)
}

/// Begins a further round of an `scf.for`, where the round before solves an argument.
pub(crate) fn next_for(
    t: &mut Table,
    h: &ForHead,
    ends: &[Label],
    len: usize,
) -> Result<bool, AllocError>
    requires known { AreKnown (facts_of t.old) }
    requires inits { AreBelow h.now.inits.now h.now.counter.0 }
    requires lower { h.now.lower.0 < h.now.counter.0 }
    requires step { h.now.step.0 < h.now.counter.0 }
    requires labels { first_of_for h.now + length h.now.args.now < 2 ^ 32 }
    requires begun { HasBegun t.old len h.now.counter.0 (1 + length h.now.args.now) }
    ensures { IfOk result (λ more. (s : Tables) → Begins s t.old len h.now.counter.0
        → GoesOnFor h.now ends.now s t.old t.new more) }
{
    let types = types_of(t.alloc, h.args)?;
    let header = Header {
        counter: h.counter,
        first: Label(h.counter.0 + 2),
    };
    let Next { exprs, changed } = next_arguments(t, header, &types, h.inits, ends)?;
    if !changed {
        return Ok(false);
    }
    t.truncate(len);
    enter_for(t, h, &types, Arguments::Given(exprs))?;
    Ok(true)
}

/// Settles the trip count of an `scf.for` whose counter has the index `at`, and defines its results.
pub(crate) fn end_for(
    t: &mut Table,
    h: &ForHead,
    at: usize,
    results: &[IrType],
) -> Result<(), AllocError>
    requires room { HasRoom t.old (length results.now) }
    requires known { AreKnown (facts_of t.old) }
    requires index { at < length t.old.here.items }
    requires label { h.now.counter.0 ≡ label_at t.old.func (length t.old.items) at }
    requires counter { IsCounter (facts_of t.old) h.now.counter.0 }
    requires arguments { first_of_for h.now + length results.now ≤ next_label t.old }
    requires conditions { AreBelow t.old.conditions.items (next_label t.old) }
    ensures { OnOk result (EndsFor t.old.conditions.items h.now results.now t.old t.new) }
{
    let turns = for_turns(t, h.counter, Label(h.counter.0 + 1), h.upper)?;
    settle(t, at, turns);
    define_carried(t, h.counter, Label(h.counter.0 + 2), results)
}

/// Begins the first round of an `scf.while`.
pub(crate) fn begin_while(t: &mut Table, h: &WhileHead) -> Result<(), AllocError>
    requires room { HasRoom t.old (length h.now.args.now) }
    requires known { AreKnown (facts_of t.old) }
    requires place { next_label t.old ≡ h.now.counter.0 + 1 }
    ensures { OnOk result (Says t.old t.new (length h.now.args.now)
        (λ F. AreOwn F (first_of_while h.now) (arg_types h.now.args.now))) }
{
    let types = types_of(t.alloc, h.args)?;
    define_own(t, &types)
}

/// Begins a further round of an `scf.while`, where the round before solves an argument.
pub(crate) fn next_while(
    t: &mut Table,
    h: &WhileHead,
    ends: &[Label],
    len: usize,
) -> Result<bool, AllocError>
    requires known { AreKnown (facts_of t.old) }
    requires inits { AreBelow h.now.inits.now h.now.counter.0 }
    requires labels { first_of_while h.now + length h.now.args.now < 2 ^ 32 }
    requires begun { HasBegun t.old len h.now.counter.0 (length h.now.args.now) }
    ensures { IfOk result (λ more. (s : Tables) → Begins s t.old len h.now.counter.0
        → GoesOnWhile h.now ends.now s t.old t.new more) }
{
    let types = types_of(t.alloc, h.args)?;
    let header = Header {
        counter: h.counter,
        first: Label(h.counter.0 + 1),
    };
    let Next { exprs, changed } = next_arguments(t, header, &types, h.inits, ends)?;
    if !changed {
        return Ok(false);
    }
    t.truncate(len);
    define_given(t, exprs)?;
    Ok(true)
}

/// Defines the parameters of the after region of an `scf.while`, which are the passed values.
pub(crate) fn pass_on(t: &mut Table, h: &WhileHead, passed: &[Label]) -> Result<(), AllocError>
    requires room { HasRoom t.old (length h.now.params.now) }
    requires known { AreKnown (facts_of t.old) }
    requires passed { AreBelow passed.now (next_label t.old) }
    ensures { OnOk result (Says t.old t.new (length h.now.params.now)
        (λ F. ArePassed F (next_label t.old) (arg_types h.now.params.now) passed.now)) }
{
    let types = types_of(t.alloc, h.params)?;
    define_passed(t, &types, passed)
}

/// Settles the trip count of an `scf.while` whose counter has the index `at`, and defines its
/// results.
pub(crate) fn end_while(
    t: &mut Table,
    h: &WhileHead,
    at: usize,
    passed: &[Label],
    results: &[IrType],
) -> Result<(), AllocError>
    requires room { HasRoom t.old (length results.now) }
    requires known { AreKnown (facts_of t.old) }
    requires index { at < length t.old.here.items }
    requires label { h.now.counter.0 ≡ label_at t.old.func (length t.old.items) at }
    requires counter { IsCounter (facts_of t.old) h.now.counter.0 }
    requires passed { AreBelow passed.now (next_label t.old) }
    requires conditions { AreBelow t.old.conditions.items (next_label t.old) }
    ensures { OnOk result
        (EndsWhile t.old.conditions.items h.now passed.now results.now t.old t.new) }
{
    let turns = while_turns(t, h.counter, h.cond)?;
    settle(t, at, turns);
    define_passed_on(t, h.counter, passed, results)
}
