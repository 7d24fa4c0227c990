ghost use Rattle.std.specs.Prelude.{◌≤◌};
ghost use Rattle.mlir_ir.specs.Values.{arg_values, for_values, items_values, kind_values, ops_values, region_values, result_values, while_values};
ghost use Rattle.mlir_ir.specs.Words.{bits_of};
ghost use Rattle.fresh_scev.specs.Bits.{AreWithBits, HaveBits};

use mlir_ir::{Arg, ForParts, Func, IrType, Item, Kind, Op, Region, WhileParts};

/// A type has at least one bit: that it is read gives the invariant of `Width`.
fn type_bits(ty: IrType)
    ensures { 1 ≤ bits_of ty }
{
    match ty {
        IrType::Int(width) => {
            let _bits = width.bits();
        }
        IrType::Index => {}
    }
}

/// The type of each argument has at least one bit.
fn args_bits(args: &[Arg])
    ensures { AreWithBits (λ at. arg_values at args.now) }
{
    for arg in args {
        type_bits(arg.ty);
    }
}

/// The type of each result of an operation has at least one bit.
fn results_bits(op: &Op)
    ensures { AreWithBits (λ at. result_values at op.now.packs op.now.results) }
{
    for ty in op.results.as_slice() {
        type_bits(*ty);
    }
}

/// The types of the values of operations, those inside them too, have at least one bit.
#[cycle(bits)]
fn ops_bits(ops: &[Op])
    ensures { AreWithBits (λ at. ops_values at ops.now) }
{
    for op in ops {
        kind_bits(&op.kind);
        results_bits(op);
    }
}

#[cycle(bits)]
fn region_bits(region: &Region)
    ensures { AreWithBits (λ at. region_values at region.now) }
{
    ops_bits(region.ops.as_slice())
}

/// The types of the values inside an operation have at least one bit.
#[cycle(bits)]
fn kind_bits(kind: &Kind)
    ensures { AreWithBits (λ at. kind_values at kind.now) }
{
    match kind {
        Kind::If(_, first, other) => {
            region_bits(first);
            match other {
                Some(region) => region_bits(region),
                None => {}
            }
        }
        Kind::For(parts) => for_bits(parts),
        Kind::While(parts) => while_bits(parts),
        _ => {}
    }
}

#[cycle(bits)]
fn for_bits(parts: &ForParts)
    ensures { AreWithBits (λ at. for_values at parts.now) }
{
    type_bits(parts.iv.ty);
    args_bits(parts.args.as_slice());
    region_bits(&parts.body)
}

#[cycle(bits)]
fn while_bits(parts: &WhileParts)
    ensures { AreWithBits (λ at. while_values at parts.now) }
{
    args_bits(parts.args.as_slice());
    region_bits(&parts.before);
    args_bits(parts.after_args.as_slice());
    region_bits(&parts.after)
}

/// The types of the values of a function's items have at least one bit, whatever number the first
/// item has.
fn items_bits(func: u8, items: &[Item])
    ensures { AreWithBits (λ k. items_values func k items.now) }
{
    for item in items {
        ops_bits(item.ops.as_slice());
    }
}

/// The types of all values of a function have at least one bit. Each type is read once.
pub(crate) fn func_bits(f: &Func)
    ensures { HaveBits f.now }
{
    args_bits(f.args.as_slice());
    match &f.body {
        None => {}
        Some(body) => items_bits(f.index, body.items.as_slice()),
    }
}
