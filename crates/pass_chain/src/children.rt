ghost use Rattle.std.specs.Prelude.{◌≡◌, ◌≤◌, IfErr, IfOk};
ghost use Rattle.fresh_scev.specs.Answers.{facts_shown};
ghost use Rattle.fresh_scev.specs.Bits.{HaveBits};
ghost use Rattle.fresh_scev.specs.Facts.{IsFacts};
ghost use Rattle.fresh_scev.specs.Table.{AreKnown};
ghost use Rattle.mlir_ir.specs.Check.{IsWellFormed, breaks};
ghost use Rattle.mlir_ir.specs.WellFormed.{OnlySize};
ghost use Rattle.pass_copy.specs.Meaning.{HasSameMeaning};
ghost use Rattle.pass_chain.specs.Children.{IsChild, IsUnmade};
ghost use Rattle.pass_chain.specs.Plans.{IsPlanFor};
ghost use Rattle.pass_chain.specs.declared.pass_kind.PassKind.TheVariants.{Peel, Unroll, UnrollFull};
ghost use Rattle.pass_unroll.specs.Limits.{factor_limit};

use crate::pass_kind::{PassKind, PassRefusal, Unmade};
use crate::plans::{MIN_FACTOR, plan};
use arith_word::Label;
use fresh_scev::Facts;
use mlir_ir::Func;
use pass_unroll::{Plan, peel, unroll, unroll_full};
use std::alloc::Global;

/// The plan of a loop for a kind of pass, or why there is none.
fn planned(
    facts: &Facts,
    f: &Func,
    target: Label,
    kind: PassKind,
    factor: u8,
) -> Result<Plan, Unmade>
    requires formed { IsWellFormed f.now }
    requires bits { HaveBits f.now }
    requires facts { IsFacts f.now (facts_shown facts.now) }
    requires known { AreKnown (facts_shown facts.now) }
    requires least { 2 ≤ factor }
    requires most { factor ≤ factor_limit }
    ensures planned { IfOk result
        (λ plan. IsPlanFor (facts_shown facts.now) f.now target.0 kind factor plan) }
    ensures unmade { IfErr result
        (λ why. IsUnmade (facts_shown facts.now) f.now target.0 kind factor why) }
{
    match plan(facts, f, target, kind, factor) {
        Ok(plan) => Ok(plan),
        Err(refusal) => Err(Unmade::Refused(refusal)),
    }
}

/// The child of a function in which the loop is unrolled by a factor. Each run of it ends as the
/// function's, with the same calls.
///
/// # Errors
///
/// `Refused` with the first reason that applies. `NoMemory` where memory is refused.
pub fn unrolled(
    alloc: Global,
    facts: &Facts,
    f: &Func,
    target: Label,
    factor: u8,
) -> Result<Func, Unmade>
    requires formed { IsWellFormed f.now }
    requires bits { HaveBits f.now }
    requires facts { IsFacts f.now (facts_shown facts.now) }
    requires known { AreKnown (facts_shown facts.now) }
    requires least { 2 ≤ factor }
    requires most { factor ≤ factor_limit }
    ensures child { IfOk result
        (λ child. IsChild (facts_shown facts.now) f.now target.0 Unroll factor child) }
    ensures formed { IfOk result (λ child. OnlySize (breaks child)) }
    ensures meaning { IfOk result (λ child. HasSameMeaning f.now child) }
    ensures unmade { IfErr result
        (λ why. IsUnmade (facts_shown facts.now) f.now target.0 Unroll factor why) }
{
    let plan = planned(facts, f, target, PassKind::Unroll, factor)?;
    match unroll(alloc, f, target, factor, &plan)? {
        Some(child) => Ok(child),
        None => Err(Unmade::Refused(PassRefusal::TooLarge)),
    }
}

/// The child of a function in which all iterations of the loop stand in its place. Each run of it ends as the
/// function's, with the same calls.
///
/// # Errors
///
/// `Refused` with the first reason that applies. `NoMemory` where memory is refused.
pub fn unrolled_full(alloc: Global, facts: &Facts, f: &Func, target: Label) -> Result<Func, Unmade>
    requires formed { IsWellFormed f.now }
    requires bits { HaveBits f.now }
    requires facts { IsFacts f.now (facts_shown facts.now) }
    requires known { AreKnown (facts_shown facts.now) }
    ensures child { IfOk result
        (λ child. IsChild (facts_shown facts.now) f.now target.0 UnrollFull MIN_FACTOR child) }
    ensures formed { IfOk result (λ child. OnlySize (breaks child)) }
    ensures meaning { IfOk result (λ child. HasSameMeaning f.now child) }
    ensures unmade { IfErr result
        (λ why. IsUnmade (facts_shown facts.now) f.now target.0 UnrollFull MIN_FACTOR why) }
{
    let plan = planned(facts, f, target, PassKind::UnrollFull, MIN_FACTOR)?;
    match unroll_full(alloc, f, target, &plan)? {
        Some(child) => Ok(child),
        None => Err(Unmade::Refused(PassRefusal::TooLarge)),
    }
}

/// The child of a function in which the loop's first iteration stands in front of it. Each run of it ends as the
/// function's, with the same calls.
///
/// # Errors
///
/// `Refused` with the first reason that applies. `NoMemory` where memory is refused.
pub fn peeled(alloc: Global, facts: &Facts, f: &Func, target: Label) -> Result<Func, Unmade>
    requires formed { IsWellFormed f.now }
    requires bits { HaveBits f.now }
    requires facts { IsFacts f.now (facts_shown facts.now) }
    requires known { AreKnown (facts_shown facts.now) }
    ensures child { IfOk result
        (λ child. IsChild (facts_shown facts.now) f.now target.0 Peel MIN_FACTOR child) }
    ensures formed { IfOk result (λ child. OnlySize (breaks child)) }
    ensures meaning { IfOk result (λ child. HasSameMeaning f.now child) }
    ensures unmade { IfErr result
        (λ why. IsUnmade (facts_shown facts.now) f.now target.0 Peel MIN_FACTOR why) }
{
    let plan = planned(facts, f, target, PassKind::Peel, MIN_FACTOR)?;
    match peel(alloc, f, target, &plan)? {
        Some(child) => Ok(child),
        None => Err(Unmade::Refused(PassRefusal::TooLarge)),
    }
}
