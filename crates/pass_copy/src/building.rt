ghost use Rattle.std.specs.Prelude.{◌≡◌, ◌+◌, ◌%◌, ◌^◌, false, IfOk, OnOk};
ghost use Rattle.arith_word.specs.declared.op.BinOp.TheVariants.{Addi, Muli};
ghost use Rattle.mlir_ir.specs.Operations as plain;
ghost use Rattle.mlir_ir.specs.View.{view_kind};
ghost use Rattle.mlir_ir.specs.Words.{bits_of};
ghost use Rattle.pass_copy.specs.Built as spec;
ghost use Rattle.pass_copy.specs.Built.{IsBehind, fresh_at};

use crate::names::Names;
use crate::places::advance;
use arith_word::{BinOp, Label, List};
use mlir_ir::{Flags, IrType, Kind, Op, Pack};
use std::alloc::{AllocError, Global};

/// The flags of an operation that may wrap.
const WRAPPING: Flags = Flags {
    nsw: false,
    nuw: false,
};

/// Operations that are built: those so far, the label of the next one, and the fresh names.
#[derive(Drop)]
pub struct Out<'f> {
    pub ops: Vec<Op>,
    pub at: u32,
    pub fresh: Names<'f>,
}

/// The number modulo that of the type.
fn reduced(ty: IrType, v: u128) -> u64
    ensures { result ≡ v % 2 ^ bits_of ty }
{
    let greatest = match ty {
        IrType::Index => u64::MAX,
        IrType::Int(width) => width.mask(),
    };
    (v % (u128::from(greatest) + 1)) as u64
}

/// The constant of a number, taken modulo its type.
fn constant_kind(ty: &IrType, v: u128) -> Kind
    ensures { view_kind result ≡ plain.Simple (plain.Const (v % 2 ^ bits_of ty.now)) }
{
    Kind::Const(reduced(*ty, v))
}

/// The sum of two values, which may wrap.
fn sum_kind(a: Label, b: Label) -> Kind
    ensures { view_kind result
        ≡ plain.Simple (plain.Bin Addi (record { nsw = false; nuw = false }) a b) }
{
    Kind::Bin(BinOp::Addi, WRAPPING, a, b)
}

/// The product of two values, which may wrap.
fn product_kind(a: Label, b: Label) -> Kind
    ensures { view_kind result
        ≡ plain.Simple (plain.Bin Muli (record { nsw = false; nuw = false }) a b) }
{
    Kind::Bin(BinOp::Muli, WRAPPING, a, b)
}

impl<'f> Out<'f> {
    /// Adds an operation with one result.
    fn push_one(&mut self, alloc: Global, ty: IrType, kind: Kind) -> Result<Label, AllocError>
        requires anew { self.old.fresh.kept ≡ false }
        requires simple { (does : plain.SimpleOp) × (view_kind kind ≡ plain.Simple does) }
        ensures label { IfOk result (λ label. label.0 ≡ self.old.at) }
        ensures built { OnOk result (IsBehind self.old
            (spec.gives_one (fresh_at self.old self.old.fresh.given) ty (view_kind kind) plain.nil)
            self.new) }
    {
        let label = Label(self.at);
        let name = self.fresh.fresh_name(alloc)?;
        let mut packs = Vec::with_capacity(alloc, 1)?;
        packs.push(Pack { name, count: 1 })?;
        let mut results = Vec::with_capacity(alloc, 1)?;
        results.push(ty)?;
        self.ops.push(Op {
            packs: List::from_vec(packs),
            results: List::from_vec(results),
            kind,
        })?;
        advance(&mut self.at, 1)?;
        Ok(label)
    }

    /// Adds the constant of a number, taken modulo its type.
    pub fn constant(&mut self, alloc: Global, ty: IrType, v: u128) -> Result<Label, AllocError>
        requires anew { self.old.fresh.kept ≡ false }
        ensures label { IfOk result (λ label. label.0 ≡ self.old.at) }
        ensures built { OnOk result (IsBehind self.old
            (spec.constant (fresh_at self.old self.old.fresh.given) ty v plain.nil) self.new) }
    {
        let kind = constant_kind(&ty, v);
        self.push_one(alloc, ty, kind)
    }

    /// Adds the sum of two values.
    pub fn sum(
        &mut self,
        alloc: Global,
        ty: IrType,
        a: Label,
        b: Label,
    ) -> Result<Label, AllocError>
        requires anew { self.old.fresh.kept ≡ false }
        ensures label { IfOk result (λ label. label.0 ≡ self.old.at) }
        ensures built { OnOk result (IsBehind self.old
            (spec.sum (fresh_at self.old self.old.fresh.given) ty a b plain.nil) self.new) }
    {
        let kind = sum_kind(a, b);
        self.push_one(alloc, ty, kind)
    }

    /// Adds the product of two values.
    pub fn product(
        &mut self,
        alloc: Global,
        ty: IrType,
        a: Label,
        b: Label,
    ) -> Result<Label, AllocError>
        requires anew { self.old.fresh.kept ≡ false }
        ensures label { IfOk result (λ label. label.0 ≡ self.old.at) }
        ensures built { OnOk result (IsBehind self.old
            (spec.product (fresh_at self.old self.old.fresh.given) ty a b plain.nil) self.new) }
    {
        let kind = product_kind(a, b);
        self.push_one(alloc, ty, kind)
    }
}
