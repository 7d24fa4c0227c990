ghost use Rattle.std.specs.Prelude.{◌≡◌, ◌++◌, [], ◌∷◌, codes, OnOk, string_bytes};
ghost use Rattle.mlir_ir.specs.Canonical.{constant_text};

use mlir_ir::{IrType, push_signed};
use std::alloc::AllocError;

/// The width of `index` in bits.
const INDEX_BITS: u32 = 64;

fn push_value(out: &mut String, ty: IrType, v: u64) -> Result<(), AllocError>
    ensures { OnOk result
        (string_bytes out.new ≡ string_bytes out.old ++ constant_text v (ty ∷ [])) }
{
    match ty {
        IrType::Int(width) => {
            let bits = width.bits();
            if bits == 1 {
                write!(out, "{}", if v == 0 { "false" } else { "true" })?;
            } else {
                push_signed(out, bits, v)?;
                write!(out, " : i{bits}")?;
            }
        }
        IrType::Index => {
            push_signed(out, INDEX_BITS, v)?;
            write!(out, " : index")?;
        }
    }
    Ok(())
}

/// Adds the operation of a constant with its type, which is left out at one bit.
pub(crate) fn push_constant(out: &mut String, results: &[IrType], v: u64) -> Result<(), AllocError>
    ensures { OnOk result (string_bytes out.new
        ≡ string_bytes out.old ++ (codes "arith.constant " ++ constant_text v results.now)) }
{
    write!(out, "arith.constant ")?;
    match results {
        [ty] => push_value(out, *ty, v),
        _ => Ok(()),
    }
}
