ghost use Rattle.std.specs.Prelude.{◌≡◌, ◌%◌, ◌^◌, ◌==◌, if◌then◌else◌};
ghost use Rattle.arith_word.specs.Operation.{value_of, cast_of, holds};
ghost use Rattle.mlir_ir.specs.View.{view_kind};
ghost use Rattle.scf_eval.specs.Machine as spec;
ghost use Rattle.scf_eval.specs.States.{slots, numbers};

use crate::input::Input;
use crate::memory::{read, word};
use arith_word::{BinOp, CastOp, Pred, Step, Width, Word, apply, cast, compare};
use mlir_ir::{IrType, Kind};

/// The width of an operation's first result.
pub(crate) fn result_width(results: &[IrType]) -> Width
    ensures { result ≡ spec.width_of results.now }
{
    if results.is_empty() {
        Width::new(1).unwrap()
    } else {
        results[0].width()
    }
}

/// An operation on two operands, taken modulo 2 to the width.
fn binary(op: BinOp, w: Width, a: Word, b: Word) -> Option<u64>
    ensures { result ≡ value_of op w (a.v % 2 ^ w) (b.v % 2 ^ w) }
{
    match apply(op, word(w, a.v), word(w, b.v)) {
        Step::Value(x) => Some(x.v),
        Step::Trap => None,
    }
}

/// A cast to that width.
fn convert(op: CastOp, a: Word, w: Width) -> u64
    ensures { result ≡ cast_of op a.w a.v w }
{
    match op {
        CastOp::Extsi | CastOp::IndexCast => cast(CastOp::IndexCast, a, w).v,
        CastOp::Extui | CastOp::IndexCastui | CastOp::Trunci => {
            cast(CastOp::IndexCastui, a, w).v
        }
    }
}

/// 1 where the predicate holds for the first word and the second one, taken at the width of the first.
fn test(pred: Pred, a: Word, b: Word) -> u64
    ensures { result ≡ (if holds pred a.w a.v (b.v % 2 ^ a.w) then 1 else 0) }
{
    if compare(pred, a, word(a.w, b.v)) {
        1
    } else {
        0
    }
}

/// Whether the signed reading of the first number is less, both taken modulo 2 to the width.
pub(crate) fn is_less(w: Width, a: u64, b: u64) -> bool
    ensures { result ≡ holds Pred.Slt w (a % 2 ^ w) (b % 2 ^ w) }
{
    compare(Pred::Slt, word(w, a), word(w, b))
}

/// What an operation without regions that is no call computes at the width of its result; `None`
/// where it traps.
pub(crate) fn work(input: &Input, values: &Vec<Word>, w: Width, kind: &Kind) -> Option<u64>
    ensures { result
        ≡ spec.kind_worked (spec.read (slots input.now) (numbers values.now.items)) w
        (view_kind kind.now) }
{
    match kind {
        Kind::Const(v) => Some(*v),
        Kind::Bin(op, _, a, b) => {
            binary(*op, w, read(input, values, *a), read(input, values, *b))
        }
        Kind::Cast(op, _, a) => Some(convert(*op, read(input, values, *a), w)),
        Kind::Cmp(pred, a, b) => Some(test(
            *pred,
            read(input, values, *a),
            read(input, values, *b),
        )),
        Kind::Select(c, a, b) => {
            if read(input, values, *c).v == 0 {
                Some(read(input, values, *b).v)
            } else {
                Some(read(input, values, *a).v)
            }
        }
        _ => None,
    }
}
