ghost use Rattle.std.specs.Prelude.{ℕ, List, ◌≡◌, ◌≤◌, ◌<◌, ◌^◌};
ghost use Rattle.mlir_ir.specs.Operations.{labels_of};
ghost use Rattle.pass_copy.specs.Replaced.{op_labels};
ghost use Rattle.pass_unroll.specs.Built.{loop_of};
ghost use Rattle.pass_unroll.specs.Children as spec;
ghost use Rattle.pass_unroll.specs.Copies.{operation_of};
ghost use Rattle.pass_unroll.specs.Limits.{full_limit};
ghost use Rattle.pass_unroll.specs.declared.plan.Plan.{Plan};

use crate::plan::Plan;
use crate::source::Source;
use crate::unrolled::By;

/// How many labels the loop takes.
pub(crate) fn loop_labels(source: &Source) -> u64
    ensures labels { result ≡ op_labels (operation_of (loop_of source.now)) }
    ensures few { result < 2 ^ 32 }
{
    u64::from(source.end - source.start.0)
}

/// How many labels the operations of a peeled loop take.
pub(crate) fn peeled_labels(source: &Source) -> u64
    ensures { (fresh : ℕ → List ℕ) (plan : Plan) → result
        ≡ labels_of (spec.peeled fresh source.now.start.0 plan (loop_of source.now)) }
{
    u64::from(source.body) + 1 + loop_labels(source)
}

/// How many labels the operations of a loop take that is unrolled in full.
pub(crate) fn full_labels(source: &Source, plan: &Plan) -> u64
    requires few { plan.now.count ≤ full_limit }
    ensures { (fresh : ℕ → List ℕ) → result
        ≡ labels_of (spec.unrolled_full fresh source.now.start.0 plan.now (loop_of source.now)) }
{
    plan.count * (1 + u64::from(source.body))
}

/// How many labels the operations of an unrolled loop take.
pub(crate) fn unrolled_labels(source: &Source, by: &By) -> u64
    ensures { (fresh : ℕ → List ℕ) → result
        ≡ labels_of (spec.unrolled fresh source.now.start.0 by.now.plan.now (loop_of source.now)
        by.now.factor) }
{
    let whole = loop_labels(source);
    let copies = u64::from(by.factor - 1) * (2 + u64::from(source.body));
    let main = 2 + whole + copies;
    if by.plan.count % u64::from(by.factor) == 0 {
        return main;
    }
    main + whole
}
