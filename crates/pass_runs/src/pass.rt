//! What passes make of the functions of a module.
ghost use Rattle.std.specs.List.{All};
ghost use Rattle.std.specs.Prelude.{◌≡◌, IfOk, IfSome};
ghost use Rattle.fresh_scev.specs.Answers.{facts_shown};
ghost use Rattle.fresh_scev.specs.Bits.{HaveBits};
ghost use Rattle.fresh_scev.specs.Facts.{IsFacts};
ghost use Rattle.fresh_scev.specs.Table.{AreKnown};
ghost use Rattle.mlir_ir.specs.Check.{IsWellFormed, breaks};
ghost use Rattle.mlir_ir.specs.WellFormed.{OnlySize};

use crate::line::{Line, Pass};
use anyhow::bail;
use arith_word::Label;
use fresh_scev::{Facts, analyse};
use mlir_ir::{Func, Module, loops};
use mlir_print::print_beside;
use pass_chain::{
    PassRefusal, Unmade, exited, is_within_limits, peeled, reduced, unrolled, unrolled_full,
};
use std::alloc::{AllocError, Global};

/// The function of that name.
fn func_named<'a>(funcs: &'a [Func], name: &str) -> Option<&'a Func>
    requires { All IsWellFormed funcs.now }
    ensures { IfSome result (λ f. IsWellFormed f.now) }
{
    for f in funcs {
        if f.name.as_str() == name {
            return Some(f);
        }
    }
    None
}

/// The label of the loop with that number.
#[tactic(auto, using(mlir_ir::proofs::LabelsFit::labels_fit))]
fn loop_numbered(alloc: Global, f: &Func, number: usize) -> Result<Option<Label>, AllocError>
    requires { IsWellFormed f.now }
{
    let all = loops(alloc, f)?;
    Ok(all.as_slice().get(number).map(|labels| labels.counter))
}

/// The child that a pass makes of a function.
fn child(alloc: Global, facts: &Facts, f: &Func, target: Label, pass: Pass) -> Result<Func, Unmade>
    requires formed { IsWellFormed f.now }
    requires bits { HaveBits f.now }
    requires facts { IsFacts f.now (facts_shown facts.now) }
    requires known { AreKnown (facts_shown facts.now) }
    ensures { IfOk result (λ child. OnlySize (breaks child)) }
{
    match pass {
        Pass::Peel => peeled(alloc, facts, f, target),
        Pass::Unroll(factor) => unrolled(alloc, facts, f, target, factor.times),
        Pass::UnrollFull => unrolled_full(alloc, facts, f, target),
        Pass::ExitValues => exited(alloc, facts, f, target),
        Pass::Reduce => reduced(alloc, facts, f, target),
    }
}

/// The words for why there is no child.
fn refusal_text(refusal: PassRefusal) -> &'static str {
    match refusal {
        PassRefusal::NotFor => "not for",
        PassRefusal::CountNotKnown => "count not known",
        PassRefusal::NoTurn => "no turn",
        PassRefusal::TooManyTurns => "too many turns",
        PassRefusal::StepTooLarge => "step too large",
        PassRefusal::NothingToDo => "nothing to do",
        PassRefusal::TooLarge => "too large",
    }
}

/// Prints a child, where it passes no limit.
fn print_child(rt: &impl Print, alloc: Global, m: &Module, child: &Func) -> anyhow::Result<()>
    requires { OnlySize (breaks child.now) }
{
    if !is_within_limits(child) {
        println!(rt; "refused: {}", refusal_text(PassRefusal::TooLarge))?;
        return Ok(());
    }
    let text = print_beside(alloc, m, child)?;
    print!(rt; "{text}")?;
    Ok(())
}

/// Prints what the pass of a line makes of the function, or why it makes nothing.
pub fn print_pass(rt: &impl Print, alloc: Global, m: &Module, line: Line) -> anyhow::Result<()>
    requires { All IsWellFormed m.now.funcs }
{
    let Some(f) = func_named(m.funcs.as_slice(), line.func) else {
        bail!("no function @{}", line.func);
    };
    let Some(target) = loop_numbered(alloc, f, line.number)? else {
        bail!("no loop #{} in @{}", line.number, line.func);
    };
    let facts = analyse(alloc, f)?;
    match child(alloc, &facts, f, target, line.pass) {
        Ok(child) => print_child(rt, alloc, m, &child),
        Err(Unmade::NoMemory) => bail!("no memory"),
        Err(Unmade::Refused(refusal)) => {
            println!(rt; "refused: {}", refusal_text(refusal))?;
            Ok(())
        }
    }
}
