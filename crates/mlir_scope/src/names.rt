ghost use Rattle.std.specs.Prelude.{◌≡◌, ◌∷◌, [], map, OnOk};
ghost use Rattle.mlir_ir.specs.ScopeFaults as faults;
ghost use Rattle.mlir_scope.specs.Noted.{noted};
ghost use Rattle.mlir_scope.specs.Reading.{defined_said};
ghost use Rattle.mlir_scope.specs.Scopes.{scope_said};

use crate::first::First;
use crate::said::{Defined, ValueType};
use crate::scope::{Known, Scope};
use mlir_ir::ScopeKind;
use std::alloc::AllocError;

/// Notes a definition of a name that is in scope.
pub(crate) fn note_one(scope: &Scope, d: Defined, first: &mut First)
    ensures { first.new.best ≡ noted first.old.best
        (faults.repeated (faults.names_of (scope_said scope.now)) (defined_said d.entry ∷ [])) }
{
    first.note_if(scope.has(d.name), d.at, ScopeKind::Twice);
}

/// Notes definitions of names that are in scope, or that an earlier one of them has.
pub fn note_repeated<'a>(
    scope: &mut Scope<'a>,
    definitions: &[Defined<'a>],
    first: &mut First,
) -> Result<(), AllocError>
    ensures noted { OnOk result
        (first.new.best
        ≡ noted first.old.best
        (faults.repeated (faults.names_of (scope_said scope.old))
        (map defined_said definitions.now))) }
    ensures kept { OnOk result (scope_said scope.new ≡ scope_said scope.old) }
{
    match definitions {
        [] => Ok(()),
        [d] => {
            note_one(scope, *d, first);
            Ok(())
        }
        _ => note_in_turn(scope, definitions, first),
    }
}

/// Notes the same, with each of the names in scope for those behind it.
fn note_in_turn<'a>(
    scope: &mut Scope<'a>,
    definitions: &[Defined<'a>],
    first: &mut First,
) -> Result<(), AllocError>
    ensures noted { OnOk result
        (first.new.best
        ≡ noted first.old.best
        (faults.repeated (faults.names_of (scope_said scope.old))
        (map defined_said definitions.now))) }
    ensures kept { OnOk result (scope_said scope.new ≡ scope_said scope.old) }
{
    let len = scope.len();
    'each: for d in definitions {
        let taken = scope.has(d.name);
        first.note_if(taken, d.at, ScopeKind::Twice);
        scope.push(Known {
            label: 0,
            name: d.name,
            count: "1".as_bytes(),
            place: 0,
            ty: ValueType::Index,
        })?;
    }
    scope.truncate(len);
    Ok(())
}
