ghost use Rattle.std.specs.Prelude.{◌≡◌, IfErr, IfOk};
ghost use Rattle.fresh_scev.specs.Answers.{facts_shown};
ghost use Rattle.fresh_scev.specs.Bits.{HaveBits};
ghost use Rattle.fresh_scev.specs.Facts.{IsFacts};
ghost use Rattle.mlir_ir.specs.Check.{IsWellFormed, breaks};
ghost use Rattle.mlir_ir.specs.WellFormed.{OnlySize};
ghost use Rattle.pass_chain.specs.Children.{IsExited, IsNotExited};
ghost use Rattle.pass_copy.specs.Meaning.{HasSameMeaning};

use crate::given::result_exprs;
use crate::pass_kind::{PassRefusal, Unmade};
use arith_word::Label;
use fresh_scev::Facts;
use mlir_ir::Func;
use pass_copy::found_loop;
use pass_indvar::{Made, exit_values};
use std::alloc::Global;

/// The child of a function in which results of the loop are computed behind it, from their
/// expressions: those that are used, and whose expressions need values alone that are in scope where
/// the loop begins. The loop stays. Each run of the child ends as the function's, with the same
/// calls.
///
/// # Errors
///
/// `Refused` with the first reason that applies: `NotFor` where the target is no loop,
/// `NothingToDo`, `TooLarge`. `NoMemory` where memory is refused.
pub fn exited(alloc: Global, facts: &Facts, f: &Func, target: Label) -> Result<Func, Unmade>
    requires formed { IsWellFormed f.now }
    requires bits { HaveBits f.now }
    requires facts { IsFacts f.now (facts_shown facts.now) }
    ensures child { IfOk result (λ child. IsExited (facts_shown facts.now) f.now target.0 child) }
    ensures formed { IfOk result (λ child. OnlySize (breaks child)) }
    ensures meaning { IfOk result (λ child. HasSameMeaning f.now child) }
    ensures unmade { IfErr result
        (λ why. IsNotExited (facts_shown facts.now) f.now target.0 why) }
{
    let Some(op) = found_loop(f, target)? else {
        return Err(Unmade::Refused(PassRefusal::NotFor));
    };
    let exprs = result_exprs(alloc, facts, target, op)?;
    match exit_values(alloc, f, target, exprs.as_slice())? {
        Made::NothingToDo => Err(Unmade::Refused(PassRefusal::NothingToDo)),
        Made::TooManyLabels => Err(Unmade::Refused(PassRefusal::TooLarge)),
        Made::Child(child) => Ok(child),
    }
}
