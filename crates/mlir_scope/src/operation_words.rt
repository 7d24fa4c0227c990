ghost use Rattle.std.specs.Prelude.{◌≡◌};
ghost use Rattle.std.specs.Str.{bytes_eq};
ghost use Rattle.mlir_ir.specs.Resolved as spec;
ghost use Rattle.mlir_scope.specs.OperationWords as words;

use arith_word::{BinOp, CastOp, Pred};

/// Whether the bytes are those of the word.
fn is_word(word: &str, bytes: &[u8]) -> bool
    ensures { result ≡ bytes_eq word.now bytes.now }
{
    word.as_bytes() == bytes
}

/// The operation on two values that the word names; `arith.addi` for other words.
pub fn bin_named(word: &[u8]) -> BinOp
    ensures { result ≡ spec.bin_named word.now }
{
    if is_word("arith.addi", word) {
        BinOp::Addi
    } else if is_word("arith.subi", word) {
        BinOp::Subi
    } else if is_word("arith.muli", word) {
        BinOp::Muli
    } else if is_word("arith.andi", word) {
        BinOp::Andi
    } else if is_word("arith.ori", word) {
        BinOp::Ori
    } else if is_word("arith.xori", word) {
        BinOp::Xori
    } else if is_word("arith.minsi", word) {
        BinOp::Minsi
    } else if is_word("arith.maxsi", word) {
        BinOp::Maxsi
    } else if is_word("arith.minui", word) {
        BinOp::Minui
    } else {
        later_named(word)
    }
}

/// The operation among those from `arith.maxui` on.
fn later_named(word: &[u8]) -> BinOp
    ensures { result ≡ words.later_named word.now }
{
    if is_word("arith.maxui", word) {
        BinOp::Maxui
    } else if is_word("arith.shli", word) {
        BinOp::Shli
    } else if is_word("arith.shrui", word) {
        BinOp::Shrui
    } else if is_word("arith.shrsi", word) {
        BinOp::Shrsi
    } else if is_word("arith.divui", word) {
        BinOp::Divui
    } else if is_word("arith.remui", word) {
        BinOp::Remui
    } else if is_word("arith.divsi", word) {
        BinOp::Divsi
    } else if is_word("arith.remsi", word) {
        BinOp::Remsi
    } else {
        BinOp::Addi
    }
}

/// The change of width that the word names; `arith.extsi` for other words.
pub fn cast_named(word: &[u8]) -> CastOp
    ensures { result ≡ spec.cast_named word.now }
{
    if is_word("arith.extsi", word) {
        CastOp::Extsi
    } else if is_word("arith.index_cast", word) {
        CastOp::IndexCast
    } else if is_word("arith.extui", word) {
        CastOp::Extui
    } else if is_word("arith.index_castui", word) {
        CastOp::IndexCastui
    } else if is_word("arith.trunci", word) {
        CastOp::Trunci
    } else {
        CastOp::Extsi
    }
}

/// The predicate that the word names; `eq` for other words.
pub fn pred_named(word: &[u8]) -> Pred
    ensures { result ≡ spec.pred_named word.now }
{
    if is_word("eq", word) {
        Pred::Eq
    } else if is_word("ne", word) {
        Pred::Ne
    } else if is_word("slt", word) {
        Pred::Slt
    } else if is_word("sle", word) {
        Pred::Sle
    } else if is_word("sgt", word) {
        Pred::Sgt
    } else if is_word("sge", word) {
        Pred::Sge
    } else if is_word("ult", word) {
        Pred::Ult
    } else if is_word("ule", word) {
        Pred::Ule
    } else if is_word("ugt", word) {
        Pred::Ugt
    } else if is_word("uge", word) {
        Pred::Uge
    } else {
        Pred::Eq
    }
}
