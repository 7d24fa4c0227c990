ghost use Rattle.std.specs.Prelude.{◌≡◌, ◌++◌, OnOk, string_bytes};
ghost use Rattle.mlir_ir.specs.Canonical.{flags_text};
ghost use Rattle.mlir_ir.specs.Words.{bin_text, cast_text, pred_text, type_text};

use arith_word::{BinOp, CastOp, Pred};
use mlir_ir::{Flags, IrType};
use std::alloc::AllocError;

/// Adds a type.
pub(crate) fn push_type(out: &mut String, ty: IrType) -> Result<(), AllocError>
    ensures { OnOk result (string_bytes out.new ≡ string_bytes out.old ++ type_text ty) }
{
    match ty {
        IrType::Int(width) => {
            let bits = width.bits();
            write!(out, "i{bits}")
        }
        IrType::Index => write!(out, "index"),
    }
}

/// The word of an operation on two values.
pub(crate) fn bin_word(op: BinOp) -> &'static str
    ensures { result.now ≡ bin_text op }
{
    match op {
        BinOp::Addi => "arith.addi",
        BinOp::Subi => "arith.subi",
        BinOp::Muli => "arith.muli",
        BinOp::Andi => "arith.andi",
        BinOp::Ori => "arith.ori",
        BinOp::Xori => "arith.xori",
        BinOp::Minsi => "arith.minsi",
        BinOp::Maxsi => "arith.maxsi",
        BinOp::Minui => "arith.minui",
        BinOp::Maxui => "arith.maxui",
        BinOp::Shli => "arith.shli",
        BinOp::Shrui => "arith.shrui",
        BinOp::Shrsi => "arith.shrsi",
        BinOp::Divui => "arith.divui",
        BinOp::Remui => "arith.remui",
        BinOp::Divsi => "arith.divsi",
        BinOp::Remsi => "arith.remsi",
    }
}

/// The word of a change of width.
pub(crate) fn cast_word(op: CastOp) -> &'static str
    ensures { result.now ≡ cast_text op }
{
    match op {
        CastOp::Extsi => "arith.extsi",
        CastOp::IndexCast => "arith.index_cast",
        CastOp::Extui => "arith.extui",
        CastOp::IndexCastui => "arith.index_castui",
        CastOp::Trunci => "arith.trunci",
    }
}

/// The word of a predicate.
pub(crate) fn pred_word(pred: Pred) -> &'static str
    ensures { result.now ≡ pred_text pred }
{
    match pred {
        Pred::Eq => "eq",
        Pred::Ne => "ne",
        Pred::Slt => "slt",
        Pred::Sle => "sle",
        Pred::Sgt => "sgt",
        Pred::Sge => "sge",
        Pred::Ult => "ult",
        Pred::Ule => "ule",
        Pred::Ugt => "ugt",
        Pred::Uge => "uge",
    }
}

/// The overflow flags with their word, or nothing where there are none.
pub(crate) fn flags_word(flags: Flags) -> &'static str
    ensures { result.now ≡ flags_text flags }
{
    match (flags.nsw, flags.nuw) {
        (true, true) => " overflow<nsw, nuw>",
        (true, false) => " overflow<nsw>",
        (false, true) => " overflow<nuw>",
        (false, false) => "",
    }
}
