ghost use Rattle.std.specs.Prelude.{◌≡◌, ◌+◌, ◌<◌, ◌^◌, ◌++◌, map, length, take, OnOk, IfOk};
ghost use Rattle.mlir_ir.specs.Resolved.{packs_of};
ghost use Rattle.mlir_ir.specs.Values as values;
ghost use Rattle.mlir_scope.specs.Arguments.{named, pack_of};
ghost use Rattle.mlir_scope.specs.Built.{values_in};
ghost use Rattle.mlir_scope.specs.Reading.{packed_said, defined_said, type_said};

use crate::results::{part, share};
use crate::said::{Defined, Packed, ValueType};
use crate::scope_names::{Named, ScopeNames};
use crate::unbuilt::Unbuilt;
use std::alloc::{AllocError, Global};

/// The label that comes so many labels behind.
fn behind(at: u32, count: usize) -> Result<u32, Unbuilt>
    ensures { IfOk result (λ next. next ≡ at + count) }
{
    if count <= (u32::MAX - at) as usize {
        Ok(at + count as u32)
    } else {
        Err(Unbuilt::NoRoom)
    }
}

/// Puts the results of one pack in scope, from that label on.
fn push_pack<'a>(
    scope: &mut ScopeNames<'a>,
    at: u32,
    pack: Packed<'a>,
    types: &[ValueType],
) -> Result<(), AllocError>
    requires { at + length types.now < 2 ^ 32 }
    ensures { OnOk result
        (values_in scope.new ≡ values_in scope.old
        ++ values.pack_values at (pack_of (packed_said pack.entry)) 0 (map type_said types.now)) }
{
    'each: for (place, ty) in types.iter().enumerate() {
        scope.push(Named {
            label: at + place as u32,
            name: pack.name,
            count: pack.count,
            place: place as u32,
            ty: *ty,
        })?;
    }
    Ok(())
}

/// Puts arguments in scope: names with their types, as far as both lists go, from that label on.
fn push_names<'a>(
    scope: &mut ScopeNames<'a>,
    at: u32,
    names: &[Defined<'a>],
    types: &[ValueType],
) -> Result<(), AllocError>
    requires { at + length names.now < 2 ^ 32 }
    ensures { OnOk result
        (values_in scope.new ≡ values_in scope.old
        ++ values.arg_values at (named (map defined_said names.now) (map type_said types.now))) }
{
    'each: for (i, name) in names.iter().enumerate() {
        match types.get(i) {
            None => return Ok(()),
            Some(ty) => scope.push(Named {
                label: at + i as u32,
                name: name.name,
                count: "1".as_bytes(),
                place: 0,
                ty: *ty,
            })?,
        }
    }
    Ok(())
}

/// A place of a function: the values in scope, and the label of the next value.
#[derive(Drop)]
pub(crate) struct Place<'a> {
    pub(crate) scope: ScopeNames<'a>,
    pub(crate) next: u32,
}

impl<'a> Place<'a> {
    ghost use Rattle.std.specs.Prelude.{[]};
    ghost use Rattle.mlir_scope.specs.Built.{scope_at};

    /// With no values in scope.
    pub(crate) fn new(alloc: Global) -> Place<'a>
        ensures { scope_at result ≡ [] }
    {
        Place {
            scope: ScopeNames::new(alloc),
            next: 0,
        }
    }

    /// Takes so many labels.
    pub(crate) fn skip(&mut self, count: usize) -> Result<(), Unbuilt>
        ensures next { OnOk result (self.new.next ≡ self.old.next + count) }
        ensures scope { self.new.scope ≡ self.old.scope }
    {
        self.next = behind(self.next, count)?;
        Ok(())
    }

    /// Takes the values out of scope that came behind the first `len`.
    pub(crate) fn leave(&mut self, len: usize)
        ensures scope { scope_at self.new ≡ take len (scope_at self.old) }
        ensures next { self.new.next ≡ self.old.next }
    {
        self.scope.truncate(len);
    }

    /// Gives labels to the results of an operation, and puts them in scope.
    pub(crate) fn push_results(
        &mut self,
        packs: &[Packed<'a>],
        types: &[ValueType],
    ) -> Result<(), Unbuilt>
        ensures scope { OnOk result
            (scope_at self.new ≡ scope_at self.old
            ++ values.result_values self.old.next (packs_of (map packed_said packs.now))
            (map type_said types.now)) }
        ensures next { OnOk result (self.new.next ≡ self.old.next + length types.now) }
    {
        let end = behind(self.next, types.len())?;
        let mut at = 0;
        'each: for pack in packs {
            let many = share(*pack, types.len() - at);
            push_pack(
                &mut self.scope,
                self.next + at as u32,
                *pack,
                part(types, at, many),
            )?;
            at += many;
        }
        self.next = end;
        Ok(())
    }

    /// Gives labels to arguments, and puts them in scope: names with their types, as far as both
    /// lists go.
    pub(crate) fn push_args(
        &mut self,
        names: &[Defined<'a>],
        types: &[ValueType],
    ) -> Result<(), Unbuilt>
        ensures scope { OnOk result
            (scope_at self.new ≡ scope_at self.old
            ++ values.arg_values self.old.next
            (named (map defined_said names.now) (map type_said types.now))) }
        ensures next { OnOk result
            (self.new.next ≡ self.old.next
            + length (named (map defined_said names.now) (map type_said types.now))) }
    {
        behind(self.next, names.len())?;
        push_names(&mut self.scope, self.next, names, types)?;
        self.next += names.len().min(types.len()) as u32;
        Ok(())
    }
}
