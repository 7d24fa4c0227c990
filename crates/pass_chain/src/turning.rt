ghost use Rattle.std.specs.Prelude.{◌≡◌, ◌↔◌, ◌^◌, ◌<◌, ◌≤◌, IsTrue};
ghost use Rattle.pass_chain.specs.Parts.{TurnInParts};
ghost use Rattle.pass_unroll.specs.Planned.{Turns};

use arith_word::{Pred, Width, add, mul};
use exit_solver::{Hit, least_exit};
use pass_unroll::Plan;

/// Whether a loop with this header makes `n` iterations.
#[tactic(auto, using(crate::proofs::ExactTurns::turns_never))]
fn turns_exactly(w: Width, lower: u64, upper: u64, step: u64, n: u64) -> bool
    requires start { lower < 2 ^ w }
    requires bound { upper < 2 ^ w }
    requires step { step < 2 ^ w }
    ensures { IsTrue result ↔ Turns w lower upper step n }
{
    match least_exit(w, Pred::Slt, lower, step, upper) {
        Hit::At(least) => least == n,
        Hit::Never => false,
    }
}

/// Whether the main loop and the rest loop of a loop that is unrolled by a factor make as many
/// iterations as they should.
pub(crate) fn turn_in_parts(w: Width, plan: &Plan, factor: u8) -> bool
    requires start { plan.now.lower < 2 ^ w }
    requires bound { plan.now.upper < 2 ^ w }
    requires step { plan.now.step < 2 ^ w }
    requires factor { 1 ≤ factor }
    ensures { IsTrue result ↔ TurnInParts w plan.now factor }
{
    let factor = u64::from(factor);
    let main = plan.count / factor;
    let behind = add(w, plan.lower, mul(w, main * factor, plan.step));
    turns_exactly(w, plan.lower, behind, mul(w, factor, plan.step), main)
        && turns_exactly(w, behind, plan.upper, plan.step, plan.count % factor)
}
