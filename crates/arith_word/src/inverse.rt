ghost use Rattle.std.specs.Prelude.{◌≡◌, ◌*◌, ◌%◌, ◌^◌, ◌<◌};
ghost use Rattle.arith_word.specs.Inverse.{IsGreatestTwo};

use crate::width::Width;

/// The inverse of an odd number modulo 2 to the width, by Newton's iteration: each round doubles
/// the bits that are right.
pub fn inverse_odd(w: Width, o: u64) -> u64
    requires { o % 2 ≡ 1 }
    ensures below { result < 2 ^ w }
    ensures inverse { (o * result) % 2 ^ w ≡ 1 }
{
    let mut x = 1u64;
    for round in 0..6u32 {
        let _ = round;
        x = x.wrapping_mul(2u64.wrapping_sub(o.wrapping_mul(x)));
    }
    x & w.mask()
}

/// The greatest `t` such that 2 to the `t` divides `v`.
pub fn twos(v: u64) -> u32
    requires { 0 < v }
    ensures { IsGreatestTwo v result }
{
    v.trailing_zeros()
}
