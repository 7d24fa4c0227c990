ghost use Rattle.std.specs.Prelude.{◌≡◌, ◌+◌, ◌^◌, ◌<◌, ◌≤◌, ◌-◌, ◌==◌, nat_lt, nat_le};
ghost use Rattle.arith_word.specs.Operation.{holds};
ghost use Rattle.exit_solver.specs.Exit.{distance, FailsOn, FailsWithin};

use arith_word::{Pred, Width, add, sub};

/// The numbers `from`, `from` + 1 and so on to `from` + `len` - 1, modulo 2 to a width.
#[derive(Clone, Copy, Debug, PartialEq, Eq)]
pub struct Arc {
    pub from: u64,
    pub len: u128,
}

/// The arc of the numbers `v` for which `pred(v, c)` is false. It has from 0 to 2 to the width
/// numbers.
pub fn exit_arc(pred: Pred, c: u64, w: Width) -> Arc
    requires { c < 2 ^ w }
    ensures from { result.from < 2 ^ w }
    ensures len { result.len ≤ 2 ^ w }
    ensures exits { FailsOn w result (λ v. holds pred w v c) }
    ensures distances { FailsWithin w result (λ v. holds pred w v c) }
{
    arc_of(pred, c, w)
}

/// The same arc, by distances.
fn arc_of(pred: Pred, c: u64, w: Width) -> Arc
    requires { c < 2 ^ w }
    ensures from { result.from < 2 ^ w }
    ensures len { result.len ≤ 2 ^ w }
    ensures distances { FailsWithin w result (λ v. holds pred w v c) }
{
    match pred {
        Pred::Eq => others(w, c),
        Pred::Ne => Arc { from: c, len: 1 },
        Pred::Slt => at_least(w, half(w), c),
        Pred::Sle => above(w, half(w), c),
        Pred::Sgt => at_most(w, half(w), c),
        Pred::Sge => below(w, half(w), c),
        Pred::Ult => at_least(w, 0, c),
        Pred::Ule => above(w, 0, c),
        Pred::Ugt => at_most(w, 0, c),
        Pred::Uge => below(w, 0, c),
    }
}

/// How many numbers the width has.
pub(crate) fn count(w: Width) -> u128
    ensures value { result ≡ 2 ^ w }
    ensures width { 1 ≤ w }
    ensures at_most { result ≤ 2 ^ 64 }
{
    u128::from(w.mask()) + 1
}

/// The number whose signed reading is the least.
fn half(w: Width) -> u64
    ensures value { result ≡ 2 ^ (w - 1) }
    ensures width { 1 ≤ w }
{
    1u64 << (w.bits() - 1)
}

/// All numbers but `c`.
fn others(w: Width, c: u64) -> Arc
    requires { c < 2 ^ w }
    ensures from { result.from < 2 ^ w }
    ensures len { result.len ≤ 2 ^ w }
    ensures distances { FailsWithin w result (λ v. v == c) }
{
    Arc {
        from: add(w, c, 1),
        len: count(w) - 1,
    }
}

/// The numbers from `c` on, in the order that begins at `least`.
fn at_least(w: Width, least: u64, c: u64) -> Arc
    requires first { least < 2 ^ w }
    requires number { c < 2 ^ w }
    ensures from { result.from < 2 ^ w }
    ensures len { result.len ≤ 2 ^ w }
    ensures distances { FailsWithin w result (λ v. nat_lt (distance w least v) (distance w least c)) }
{
    Arc {
        from: c,
        len: count(w) - u128::from(sub(w, c, least)),
    }
}

/// The numbers behind `c`, in the order that begins at `least`.
fn above(w: Width, least: u64, c: u64) -> Arc
    requires first { least < 2 ^ w }
    requires number { c < 2 ^ w }
    ensures from { result.from < 2 ^ w }
    ensures len { result.len ≤ 2 ^ w }
    ensures distances { FailsWithin w result (λ v. nat_le (distance w least v) (distance w least c)) }
{
    Arc {
        from: add(w, c, 1),
        len: count(w) - 1 - u128::from(sub(w, c, least)),
    }
}

/// The numbers up to `c`, in the order that begins at `least`.
fn at_most(w: Width, least: u64, c: u64) -> Arc
    requires first { least < 2 ^ w }
    requires number { c < 2 ^ w }
    ensures from { result.from < 2 ^ w }
    ensures len { result.len ≤ 2 ^ w }
    ensures distances { FailsWithin w result (λ v. nat_lt (distance w least c) (distance w least v)) }
{
    Arc {
        from: least,
        len: u128::from(sub(w, c, least)) + 1,
    }
}

/// The numbers before `c`, in the order that begins at `least`.
fn below(w: Width, least: u64, c: u64) -> Arc
    requires first { least < 2 ^ w }
    requires number { c < 2 ^ w }
    ensures from { result.from < 2 ^ w }
    ensures len { result.len ≤ 2 ^ w }
    ensures distances { FailsWithin w result (λ v. nat_le (distance w least c) (distance w least v)) }
{
    Arc {
        from: least,
        len: u128::from(sub(w, c, least)),
    }
}
