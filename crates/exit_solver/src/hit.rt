ghost use Rattle.std.specs.Prelude.{◌≡◌, ◌+◌, ◌*◌, ◌%◌, ◌<◌, ◌≤◌, ◌^◌, IfSome};
ghost use Rattle.exit_solver.specs.Exit.{Hits, IsLeast, LiesBetween, IsFirst};

use crate::arc::count;
use arith_word::Width;

/// The first turn of a recurrence at which it hits an arc.
#[derive(Clone, Copy, Debug, PartialEq, Eq)]
pub enum Hit {
    /// The number of the turn, from 0.
    At(u64),
    /// No turn hits.
    Never,
}

/// The least `n` such that `a + b * n` modulo 2 to the width is below `len`.
///
/// The number of steps is at most twice the width: an interval of remainders by `b` stands for the
/// interval of remainders by the modulus, as in Euclid's algorithm.
pub fn first_hit(w: Width, a: u64, b: u64, len: u128) -> Hit
    requires start { a < 2 ^ w }
    requires step { b < 2 ^ w }
    requires length { len ≤ 2 ^ w }
    ensures { IsLeast (Hits w a b len) result }
{
    let start = u128::from(a);
    if len == 0 {
        return Hit::Never;
    }
    if start < len {
        return Hit::At(0);
    }
    let modulus = count(w);
    let low = modulus - start;
    match first_between(modulus, u128::from(b), low, low + len - 1) {
        Some(n) => Hit::At(n as u64),
        None => Hit::Never,
    }
}

/// The least `n` for which the remainder of `b * n` by `m` lies from `l` to `r`.
fn first_between(m: u128, b: u128, l: u128, r: u128) -> Option<u128>
    requires modulus { m ≤ 2 ^ 64 }
    requires factor { b < m }
    requires order { l ≤ r }
    requires top { r < m }
    ensures first { IsFirst (LiesBetween m b l r) result }
    ensures bound { IfSome result (λ n. n < m) }
{
    if l == 0 {
        return Some(0);
    }
    if b == 0 {
        return None;
    }
    let multiple = l.div_ceil(b);
    if multiple * b <= r {
        return Some(multiple);
    }
    if 2 * b > m {
        return first_between(m, m - b, m - r, m - l);
    }
    // no multiple of b lies from l to r: find how often the modulus is passed
    let wraps = first_between(b, (b - m % b) % b, l % b, r % b)?;
    Some((m * wraps + l).div_ceil(b))
}
