ghost use Rattle.std.specs.Prelude.{◌≡◌, ◌+◌, ◌^◌, map, IfOk};
ghost use Rattle.std.specs.Str.Parse.{digits_value};
ghost use Rattle.mlir_ir.specs.Resolved as resolved;
ghost use Rattle.mlir_ir.specs.Words.{bits_of};
ghost use Rattle.mlir_scope.specs.Arguments.{named, pack_of};
ghost use Rattle.mlir_scope.specs.Built.{first_type};
ghost use Rattle.mlir_scope.specs.Reading.{packed_said, defined_said, type_said};

use crate::digits::capped;
use crate::said::{Defined, Packed, ValueType};
use crate::unbuilt::Unbuilt;
use arith_word::{List, Text, Width};
use mlir_ir::{Arg, IrType, Pack};
use std::alloc::Global;

/// A type as one of the program.
pub(crate) fn ir_type(ty: ValueType) -> Result<IrType, Unbuilt>
    ensures { IfOk result (λ made. made ≡ type_said ty) }
{
    match ty {
        ValueType::Index => Ok(IrType::Index),
        ValueType::Int(bits) => match Width::new(bits) {
            Some(width) => Ok(IrType::Int(width)),
            None => Err(Unbuilt::NoRoom),
        },
    }
}

/// Types as those of the program.
pub(crate) fn ir_types(alloc: Global, types: &[ValueType]) -> Result<List<IrType>, Unbuilt>
    ensures { IfOk result (λ made. made ≡ map type_said types.now) }
{
    let mut made = Vec::with_capacity(alloc, types.len())?;
    'each: for ty in types {
        made.push(ir_type(*ty)?)?;
    }
    Ok(List::from_vec(made))
}

/// The first of some types, `index` where there is none.
pub(crate) fn first_of(types: &[ValueType]) -> ValueType
    ensures { type_said result ≡ first_type (map type_said types.now) }
{
    match types.split_first() {
        Some((ty, _)) => *ty,
        None => ValueType::Index,
    }
}

/// The greatest number of a type's width.
pub(crate) fn mask_of(ty: ValueType) -> Result<u64, Unbuilt>
    ensures { IfOk result (λ mask. mask + 1 ≡ 2 ^ bits_of (type_said ty)) }
{
    match ty {
        ValueType::Index => Ok(u64::MAX),
        ValueType::Int(bits) => match Width::new(bits) {
            Some(width) => Ok(width.mask()),
            None => Err(Unbuilt::NoRoom),
        },
    }
}

/// A name as a text.
pub(crate) fn text_of(alloc: Global, name: &[u8]) -> Result<Text, Unbuilt>
    ensures { IfOk result (λ text. text ≡ name.now) }
{
    match Text::from_bytes(alloc, name)? {
        Some(text) => Ok(text),
        None => Err(Unbuilt::NoRoom),
    }
}

/// An argument with that name and type.
pub(crate) fn arg_of(alloc: Global, name: &[u8], ty: ValueType) -> Result<Arg, Unbuilt>
    ensures { IfOk result (λ arg. arg ≡ record { name = name.now; ty = type_said ty }) }
{
    Ok(Arg {
        name: text_of(alloc, name)?,
        ty: ir_type(ty)?,
    })
}

/// Arguments: names with their types, as far as both lists go.
pub(crate) fn args_of(
    alloc: Global,
    names: &[Defined],
    types: &[ValueType],
) -> Result<List<Arg>, Unbuilt>
    ensures { IfOk result
        (λ made. made ≡ named (map defined_said names.now) (map type_said types.now)) }
{
    let mut made = Vec::with_capacity(alloc, names.len())?;
    'each: for (i, name) in names.iter().enumerate() {
        match types.get(i) {
            None => return Ok(List::from_vec(made)),
            Some(ty) => made.push(arg_of(alloc, name.name, *ty)?)?,
        }
    }
    Ok(List::from_vec(made))
}

/// The number that digits write, in a byte.
fn byte_of(digits: &[u8]) -> Result<u8, Unbuilt>
    ensures { IfOk result (λ n. n ≡ digits_value 10 digits.now) }
{
    let number = capped(10, digits);
    if number <= u128::from(u8::MAX) {
        Ok(number as u8)
    } else {
        Err(Unbuilt::NoRoom)
    }
}

/// The results of one name.
fn one_pack(alloc: Global, pack: Packed) -> Result<Pack, Unbuilt>
    ensures { IfOk result (λ made. made ≡ pack_of (packed_said pack.entry)) }
{
    Ok(Pack {
        name: text_of(alloc, pack.name)?,
        count: byte_of(pack.count)?,
    })
}

/// The names of an operation's results.
pub(crate) fn packs_of(alloc: Global, packs: &[Packed]) -> Result<List<Pack>, Unbuilt>
    ensures { IfOk result (λ made. made ≡ resolved.packs_of (map packed_said packs.now)) }
{
    let mut made = Vec::with_capacity(alloc, packs.len())?;
    'each: for pack in packs {
        made.push(one_pack(alloc, *pack)?)?;
    }
    Ok(List::from_vec(made))
}
