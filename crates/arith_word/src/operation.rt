ghost use Rattle.std.specs.Prelude.{◌≡◌, ◌-◌, ◌*◌, ◌/◌, ◌%◌, ◌^◌, ◌||◌, ◌==◌, ◌<◌, nat_lt, if◌then◌else◌, Some};
ghost use Rattle.std.specs.Int.RustNames.{int_lt, int_div, int_rem};
ghost use Rattle.arith_word.specs.Word.{signed_reading, residue};
ghost use Rattle.arith_word.specs.Operation.{value_of, IsStep, floor_quotient, overflows, unless, cast_of, Casts, holds};

use crate::op::{BinOp, CastOp, Pred, Step};
use crate::width::Width;
use crate::word::{Word, add, mul, reading, sub};

/// The number modulo 2 to the width.
#[tactic(auto, using(crate::proofs::Residues::low_bits_are))]
fn low_bits(w: Width, x: u64) -> u64
    ensures { result ≡ x % 2 ^ w }
{
    x & w.mask()
}

/// The integer modulo 2 to the width.
fn unsigned(w: Width, z: i64) -> u64
    ensures { result ≡ residue w z }
{
    z.cast_unsigned() & w.mask()
}

/// The number whose signed reading is less.
fn lesser(w: Width, x: u64, y: u64) -> u64
    requires left { x < 2 ^ w }
    requires right { y < 2 ^ w }
    ensures { result ≡ (if int_lt (signed_reading w y) (signed_reading w x) then y else x) }
{
    if reading(w, y) < reading(w, x) { y } else { x }
}

/// The number whose signed reading is greater.
fn greater(w: Width, x: u64, y: u64) -> u64
    requires left { x < 2 ^ w }
    requires right { y < 2 ^ w }
    ensures { result ≡ (if int_lt (signed_reading w x) (signed_reading w y) then y else x) }
{
    if reading(w, x) < reading(w, y) { y } else { x }
}

/// `x` times 2 to the `y`; 0 where `y` is the width or more.
fn shift_left(w: Width, x: u64, y: u64) -> u64
    ensures { result ≡ (if nat_lt y w then (x * 2 ^ y) % 2 ^ w else 0) }
{
    if y >= u64::from(w.bits()) {
        0
    } else {
        (x << y) & w.mask()
    }
}

/// `x` divided by 2 to the `y`, rounded down; 0 where `y` is the width or more.
fn shift_right(w: Width, x: u64, y: u64) -> u64
    ensures { result ≡ (if nat_lt y w then x / 2 ^ y else 0) }
{
    if y >= u64::from(w.bits()) { 0 } else { x >> y }
}

/// The signed reading of `x` divided by 2 to the `y`, rounded down; 0 where `y` is the width or
/// more.
fn shift_right_signed(w: Width, x: u64, y: u64) -> u64
    requires { x < 2 ^ w }
    ensures { result ≡ (if nat_lt y w then residue w (floor_quotient (signed_reading w x) (2 ^ y)) else 0) }
{
    if y >= u64::from(w.bits()) {
        0
    } else if x < 1u64 << (w.bits() - 1) {
        x >> y
    } else {
        w.mask() - ((w.mask() - x) >> y)
    }
}

/// Whether a signed division traps: by 0, or the least number by -1.
fn traps(w: Width, x: u64, y: u64) -> bool
    ensures { result ≡ ((y == 0) || overflows w x y) }
{
    y == 0 || (x == 1u64 << (w.bits() - 1) && y == w.mask())
}

/// The step that gives this word.
fn value(w: Width, v: u64) -> Step
    requires { v < 2 ^ w }
    ensures { IsStep result w (Some v) }
{
    Step::Value(Word { w, v })
}

/// The operation on two words of one width.
///
/// A shift by the width or more gives 0. A division by 0 traps, and a signed division of the least
/// number by -1, whose quotient doesn't fit.
pub fn apply(op: BinOp, a: Word, b: Word) -> Step
    requires { a.w ≡ b.w }
    ensures { IsStep result a.w (value_of op a.w a.v b.v) }
{
    let (w, x, y) = (a.w, a.v, b.v);
    match op {
        BinOp::Addi => value(w, add(w, x, y)),
        BinOp::Subi => value(w, sub(w, x, y)),
        BinOp::Muli => value(w, mul(w, x, y)),
        BinOp::Andi => value(w, x & y),
        BinOp::Ori => value(w, x | y),
        BinOp::Xori => value(w, x ^ y),
        BinOp::Minsi => value(w, lesser(w, x, y)),
        BinOp::Maxsi => value(w, greater(w, x, y)),
        BinOp::Minui => value(w, x.min(y)),
        BinOp::Maxui => value(w, x.max(y)),
        BinOp::Shli => value(w, shift_left(w, x, y)),
        BinOp::Shrui => value(w, shift_right(w, x, y)),
        BinOp::Shrsi => value(w, shift_right_signed(w, x, y)),
        BinOp::Divui | BinOp::Remui if y == 0 => Step::Trap,
        BinOp::Divui => value(w, x / y),
        BinOp::Remui => value(w, x % y),
        BinOp::Divsi | BinOp::Remsi if traps(w, x, y) => Step::Trap,
        BinOp::Divsi => value(w, unsigned(w, reading(w, x) / reading(w, y))),
        BinOp::Remsi => value(w, unsigned(w, reading(w, x) % reading(w, y))),
    }
}

/// The word at another width: with its signed reading for `extsi` and `index_cast`, else with its
/// unsigned one, truncated where the target is narrower.
pub fn cast(op: CastOp, a: Word, to: Width) -> Word
    requires { Casts op a.w to }
    ensures width { result.w ≡ to }
    ensures value { result.v ≡ cast_of op a.w a.v to }
{
    let (w, x) = (a.w, a.v);
    let v = match op {
        CastOp::Extsi | CastOp::IndexCast => unsigned(to, reading(w, x)),
        CastOp::Extui | CastOp::IndexCastui | CastOp::Trunci => low_bits(to, x),
    };
    Word { w: to, v }
}

/// Whether the predicate holds for two words of one width.
pub fn compare(pred: Pred, a: Word, b: Word) -> bool
    requires { a.w ≡ b.w }
    ensures { result ≡ holds pred a.w a.v b.v }
{
    let (w, x, y) = (a.w, a.v, b.v);
    match pred {
        Pred::Eq => x == y,
        Pred::Ne => x != y,
        Pred::Slt => reading(w, x) < reading(w, y),
        Pred::Sle => reading(w, x) <= reading(w, y),
        Pred::Sgt => reading(w, x) > reading(w, y),
        Pred::Sge => reading(w, x) >= reading(w, y),
        Pred::Ult => x < y,
        Pred::Ule => x <= y,
        Pred::Ugt => x > y,
        Pred::Uge => x >= y,
    }
}
