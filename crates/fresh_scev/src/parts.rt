ghost use Rattle.std.specs.Prelude.{◌≡◌, IfOk};
ghost use Rattle.mlir_ir.specs.Rules as rules;

use mlir_ir::{Arg, IrType};
use std::alloc::{AllocError, Global};

/// The types of arguments.
pub(crate) fn types_of(alloc: Global, args: &[Arg]) -> Result<Vec<IrType>, AllocError>
    ensures { IfOk result (λ types. types.items ≡ rules.arg_types args.now) }
{
    let mut types = Vec::with_capacity(alloc, args.len())?;
    for arg in args {
        types.push(arg.ty)?;
    }
    Ok(types)
}
