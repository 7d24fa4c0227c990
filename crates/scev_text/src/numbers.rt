ghost use Rattle.std.specs.Prelude.{◌≡◌, ◌^◌, ◌<◌, ◌++◌, OnOk, string_bytes};
ghost use Rattle.scev_text.specs.Texts.{number_text};

use arith_word::Width;
use mlir_ir::push_signed;
use std::alloc::AllocError;

/// Adds a number in its signed reading; at one bit 0 or 1.
pub fn push_number(out: &mut String, w: Width, v: u64) -> Result<(), AllocError>
    requires { v < 2 ^ w }
    ensures { OnOk result (string_bytes out.new ≡ string_bytes out.old ++ number_text w v) }
{
    if w.bits() == 1 {
        write!(out, "{v}")
    } else {
        push_signed(out, w.bits(), v)
    }
}
