ghost use Rattle.std.specs.Prelude.{◌≡◌, ◌≤◌, ◌++◌, OnOk, string_bytes};
ghost use Rattle.std.specs.Fmt.{signed_decimal};
ghost use Rattle.arith_word.specs.Word.{signed_reading};

use std::alloc::AllocError;

/// Adds the signed reading of `v` at that many bits, in decimal.
pub fn push_signed(out: &mut String, bits: u32, v: u64) -> Result<(), AllocError>
    requires low { 1 ≤ bits }
    requires high { bits ≤ 64 }
    ensures { OnOk result (string_bytes out.new
        ≡ string_bytes out.old ++ signed_decimal (signed_reading bits v)) }
{
    let half = 1u64 << (bits - 1);
    if v < half {
        write!(out, "{v}")?;
    } else {
        let size = (half - 1 + half).saturating_sub(v) + 1;
        write!(out, "-{size}")?;
    }
    Ok(())
}
