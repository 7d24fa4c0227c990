ghost use Rattle.std.specs.Prelude.{◌≡◌, ◌+◌, ◌<◌, ◌≤◌, ◌^◌, length, min, IfOk, OnOk};
ghost use Rattle.std.specs.Result.{result_err};
ghost use Rattle.mlir_ir.specs.Check as spec;
ghost use Rattle.mlir_ir.specs.Limits.{arg_limit};
ghost use Rattle.mlir_ir.specs.Scope.{scope_values};

use crate::fault::keep;
use crate::keeps::arg_rules;
use crate::rules::Position;
use crate::scope::Scope;
use crate::shape::Shape;
use crate::types::{Arg, IrType};

/// The position past the arguments, or their first break. Their types are those of `wanted`, as far
/// as that goes; in a declaration names may be missing.
#[tactic(auto, using(crate::proofs::ListedBreaks::next_arg, crate::proofs::ListedBreaks::past_past))]
pub(crate) fn check_args<'x>(
    scope: &'x Scope<'x>,
    declared: bool,
    wanted: &[IrType],
    at: Position,
    args: &'x [Arg],
) -> Result<Position, Shape>
    requires { at.next + min arg_limit (length args.now) < 2 ^ 32 }
    ensures found { spec.first (spec.args_breaks declared 0 wanted.now (scope_values scope.now)
        at args.now) ≡ result_err result }
    ensures moved { IfOk result (λ behind. behind ≡ spec.past (length args.now) 0 at) }
    ensures few { OnOk result (length args.now ≤ arg_limit) }
{
    let mut behind = at;
    for (k, arg) in args.iter().enumerate() {
        let here = Scope::Args(&*scope, at.next, &args[..k]);
        let rules = arg_rules(declared, k, wanted, &here, arg);
        keep(behind.last, rules)?;
        behind = behind.past(1, 0);
    }
    Ok(behind)
}
