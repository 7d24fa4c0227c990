ghost use Rattle.std.specs.Prelude.{◌≡◌, ◌+◌, ◌-◌, ◌*◌, ◌%◌, ◌^◌, ◌<◌};
ghost use Rattle.arith_word.specs.Word.{signed_reading};

use crate::width::Width;

/// A residue modulo 2 to the width.
#[derive(Clone, Copy, Debug, PartialEq, Eq)]
pub struct Word {
    pub w: Width,
    pub v: u64,
    ghost below: { v < 2 ^ w },
}

/// The sum modulo 2 to the width.
#[tactic(auto, using(crate::proofs::Residues::masked))]
pub fn add(w: Width, a: u64, b: u64) -> u64
    ensures { result ≡ (a + b) % 2 ^ w }
{
    a.wrapping_add(b) & w.mask()
}

/// The difference modulo 2 to the width.
pub fn sub(w: Width, a: u64, b: u64) -> u64
    ensures { result ≡ (a + (2 ^ w - b % 2 ^ w)) % 2 ^ w }
{
    a.wrapping_sub(b) & w.mask()
}

/// The product modulo 2 to the width.
#[tactic(auto, using(crate::proofs::Residues::masked))]
pub fn mul(w: Width, a: u64, b: u64) -> u64
    ensures { result ≡ (a * b) % 2 ^ w }
{
    a.wrapping_mul(b) & w.mask()
}

/// What is added to `a` to give 0, modulo 2 to the width.
pub fn neg(w: Width, a: u64) -> u64
    ensures { result ≡ (2 ^ w - a % 2 ^ w) % 2 ^ w }
{
    0u64.wrapping_sub(a) & w.mask()
}

/// The signed reading: `v` where its highest bit is 0, else `v` less 2 to the width.
pub fn signed(x: Word) -> i64
    ensures { result ≡ signed_reading x.w x.v }
{
    reading(x.w, x.v)
}

/// The signed reading of a number of `w` bits.
pub(crate) fn reading(w: Width, v: u64) -> i64
    requires { v < 2 ^ w }
    ensures { result ≡ signed_reading w v }
{
    let half = 1u64 << (w.bits() - 1);
    if v < half {
        v as i64
    } else {
        -1 - (w.mask() - v) as i64
    }
}
