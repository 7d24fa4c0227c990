ghost use Rattle.std.specs.Prelude.{◌≡◌, ◌^◌, ◌<◌, ◌≤◌, IfErr, IfOk, MatchOption};
ghost use Rattle.fresh_scev.specs.Answers.{facts_shown};
ghost use Rattle.fresh_scev.specs.Bits.{HaveBits};
ghost use Rattle.fresh_scev.specs.Facts.{IsFacts};
ghost use Rattle.fresh_scev.specs.Table.{AreKnown};
ghost use Rattle.mlir_ir.specs.Check.{IsWellFormed};
ghost use Rattle.pass_chain.specs.Plans.{IsForWith, IsPlanFor, Refuses, RefusesAt, SuitsAt};
ghost use Rattle.pass_chain.specs.declared.pass_kind.PassKind.TheVariants.{Unroll};

use crate::bounds::Bounds;
use crate::finding::find_for;
use crate::pass_kind::{PassKind, PassRefusal};
use crate::reading::read_plan;
use crate::turning::turn_in_parts;
use arith_word::{Label, Width};
use fresh_scev::Facts;
use mlir_ir::Func;
use pass_unroll::Plan;

/// The most iterations of a loop that is unrolled in full.
pub const MAX_FULL_COUNT: u64 = 31;

/// The least iterations that stand in one of an unrolled loop.
pub const MIN_FACTOR: u8 = 2;

/// The most iterations that stand in one of an unrolled loop.
pub const MAX_FACTOR: u8 = 32;

/// Why a loop isn't unrolled by a factor.
fn unroll_refusal(w: Width, plan: &Plan, factor: u8) -> Option<PassRefusal>
    requires start { plan.now.lower < 2 ^ w }
    requires bound { plan.now.upper < 2 ^ w }
    requires step { plan.now.step < 2 ^ w }
    requires factor { 1 ≤ factor }
    ensures { MatchOption result (SuitsAt w Unroll factor plan.now)
        (λ refusal. RefusesAt w Unroll factor plan.now refusal) }
{
    if plan.count < u64::from(factor) {
        return Some(PassRefusal::NoTurn);
    }
    if !turn_in_parts(w, plan, factor) {
        return Some(PassRefusal::StepTooLarge);
    }
    None
}

/// Why a pass isn't done to a loop of numbers.
fn refusal(w: Width, plan: &Plan, kind: PassKind, factor: u8) -> Option<PassRefusal>
    requires start { plan.now.lower < 2 ^ w }
    requires bound { plan.now.upper < 2 ^ w }
    requires step { plan.now.step < 2 ^ w }
    requires factor { 1 ≤ factor }
    ensures { MatchOption result (SuitsAt w kind factor plan.now)
        (λ refusal. RefusesAt w kind factor plan.now refusal) }
{
    match kind {
        PassKind::Unroll => unroll_refusal(w, plan, factor),
        PassKind::UnrollFull => {
            if plan.count > MAX_FULL_COUNT {
                Some(PassRefusal::TooManyTurns)
            } else {
                None
            }
        }
        PassKind::Peel => {
            if plan.count == 0 {
                Some(PassRefusal::NoTurn)
            } else {
                None
            }
        }
        PassKind::ExitValues => None,
        PassKind::Reduce => None,
    }
}

/// The plan of the loop with these bounds for a kind of pass, or why it has none.
pub(crate) fn plan_loop(
    facts: &Facts,
    f: &Func,
    target: Label,
    b: Bounds,
    kind: PassKind,
    factor: u8,
) -> Result<Plan, PassRefusal>
    requires formed { IsWellFormed f.now }
    requires bits { HaveBits f.now }
    requires facts { IsFacts f.now (facts_shown facts.now) }
    requires known { AreKnown (facts_shown facts.now) }
    requires stands { IsForWith f.now target.0 b }
    requires least { 2 ≤ factor }
    requires most { factor ≤ MAX_FACTOR }
    ensures planned { IfOk result
        (λ plan. IsPlanFor (facts_shown facts.now) f.now target.0 kind factor plan) }
    ensures refused { IfErr result
        (λ refusal. Refuses (facts_shown facts.now) f.now target.0 kind factor refusal) }
{
    let w = b.ty.width();
    let Some(plan) = read_plan(facts, f, target, b) else {
        return Err(PassRefusal::CountNotKnown);
    };
    let refused = refusal(w, &plan, kind, factor);
    match refused {
        None => Ok(plan),
        Some(refusal) => Err(refusal),
    }
}

/// The plan of the `scf.for` with that label for a kind of pass, or why there is none: the first
/// reason that applies.
pub fn plan(
    facts: &Facts,
    f: &Func,
    target: Label,
    kind: PassKind,
    factor: u8,
) -> Result<Plan, PassRefusal>
    requires formed { IsWellFormed f.now }
    requires bits { HaveBits f.now }
    requires facts { IsFacts f.now (facts_shown facts.now) }
    requires known { AreKnown (facts_shown facts.now) }
    requires least { 2 ≤ factor }
    requires most { factor ≤ MAX_FACTOR }
    ensures planned { IfOk result
        (λ plan. IsPlanFor (facts_shown facts.now) f.now target.0 kind factor plan) }
    ensures refused { IfErr result
        (λ refusal. Refuses (facts_shown facts.now) f.now target.0 kind factor refusal) }
{
    match find_for(f, target) {
        None => Err(PassRefusal::NotFor),
        Some(b) => plan_loop(facts, f, target, b, kind, factor),
    }
}
