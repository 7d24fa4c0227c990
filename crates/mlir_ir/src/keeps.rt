ghost use Rattle.std.specs.Prelude.{◌≡◌, ◌<◌, ◌≤◌, ◌&&◌, [], ◌∷◌, drop, nat_le, nat_lt, length, IsTrue};
ghost use Rattle.std.specs.List.{list_all};
ghost use Rattle.mlir_ir.specs.Limits.{arg_limit, op_limit};
ghost use Rattle.mlir_ir.specs.Rules as spec;
ghost use Rattle.mlir_ir.specs.Scope.{scope_values};

use crate::counted::{is_kind_counted, is_kind_sized, packs_hold};
use crate::limits::{ARG_LIMIT, ITEM_LIMIT, NAME_LIMIT, OP_LIMIT, RESULT_LIMIT};
use crate::names::is_name;
use crate::rules::{Nest, Position, Rules};
use crate::scope::Scope;
use crate::typed::{are_free, is_free, is_kind_typed, truth};
use crate::types::{Arg, Func, IrType, Op, Pack};
use crate::uses::{
    are_in_scope, has_type, have_arg_types, have_types, operands_in_scope, same_type,
};
use arith_word::Label;

fn is_short(name: &[u8]) -> bool
    ensures { result ≡ spec.is_short name.now }
{
    name.len() <= NAME_LIMIT
}

fn are_short(packs: &[Pack]) -> bool
    ensures { result ≡ list_all (λ pack. spec.is_short pack.name) packs.now }
{
    packs.iter().all(|pack| is_short(pack.name.as_bytes()))
}

/// The rules that an operation keeps, besides those of the places in its regions.
pub(crate) fn op_rules(scope: &Scope, nest: Nest, at: Position, op: &Op) -> Rules
    ensures value { result ≡ spec.op_rules (scope_values scope.now) nest at
        op.now.packs op.now.results op.now.kind }
    ensures few { IsTrue result.sized → at.ops < op_limit }
    ensures fits { IsTrue result.sized → IsTrue nest.item_fits }
    ensures opens { IsTrue result.sized
        → IsTrue (spec.is_kind_sized nest.regions nest.loops op.now.kind) }
{
    let packs = op.packs.as_slice();
    let results = op.results.as_slice();
    Rules {
        in_scope: operands_in_scope(scope, &op.kind),
        typed: are_free(scope, packs) && is_kind_typed(scope, results, &op.kind),
        counted: packs_hold(packs, results.len()) && is_kind_counted(results.len(), &op.kind),
        sized: are_short(packs)
            && results.len() <= RESULT_LIMIT
            && at.ops < OP_LIMIT
            && nest.item_fits
            && is_kind_sized(nest.regions, nest.loops, &op.kind),
    }
}

/// Whether a type is the one at that place of the list, where there is one.
fn is_wanted(ty: IrType, wanted: &[IrType], place: usize) -> bool
    ensures { result ≡ spec.same_types (ty ∷ []) (drop place wanted.now) }
{
    wanted.len() <= place || same_type(ty, wanted[place])
}

/// The rules that an argument keeps, which is number `place` of its list from 0 on.
pub(crate) fn arg_rules(
    declared: bool,
    place: usize,
    wanted: &[IrType],
    scope: &Scope,
    arg: &Arg,
) -> Rules
    ensures value { result ≡ spec.arg_rules declared place (drop place wanted.now)
        (scope_values scope.now) arg.now }
    ensures few { IsTrue result.sized → place < arg_limit }
{
    let name = arg.name.as_bytes();
    Rules {
        in_scope: true,
        typed: (is_free(scope, name) || declared && name.len() == 0)
            && is_wanted(arg.ty, wanted, place),
        counted: true,
        sized: is_short(name) && place < ARG_LIMIT,
    }
}

/// The rules that the head of a function keeps.
pub(crate) fn head_rules(func: &Func) -> Rules
    ensures { result ≡ spec.head_rules func.now }
{
    let name = func.name.as_bytes();
    Rules {
        in_scope: true,
        typed: is_name(name),
        counted: true,
        sized: is_short(name) && func.results.as_slice().len() <= RESULT_LIMIT,
    }
}

/// The rules that a yield keeps; one without values is none.
pub(crate) fn yield_rules(scope: &Scope, wanted: &[IrType], ends: &[Label]) -> Rules
    ensures { result ≡ spec.yield_rules (scope_values scope.now) wanted.now ends.now }
{
    Rules {
        in_scope: are_in_scope(scope, ends),
        typed: have_types(scope, wanted, ends),
        counted: ends.len() == 0 || ends.len() == wanted.len(),
        sized: true,
    }
}

/// The rules that the yield behind `do` keeps.
pub(crate) fn turn_rules(scope: &Scope, wanted: &[Arg], ends: &[Label]) -> Rules
    ensures { result ≡ spec.turn_rules (scope_values scope.now)
        (spec.arg_types wanted.now) ends.now }
{
    Rules {
        in_scope: are_in_scope(scope, ends),
        typed: have_arg_types(scope, wanted, ends),
        counted: ends.len() == wanted.len(),
        sized: true,
    }
}

/// The rules that an `scf.condition` keeps.
pub(crate) fn condition_rules(
    scope: &Scope,
    wanted: &[IrType],
    cond: Label,
    passed: &[Label],
) -> Rules
    ensures { result ≡ spec.condition_rules (scope_values scope.now) wanted.now cond passed.now }
{
    Rules {
        in_scope: scope.type_of(cond.0).is_some() && are_in_scope(scope, passed),
        typed: has_type(scope, truth(), cond) && have_types(scope, wanted, passed),
        counted: passed.len() == wanted.len(),
        sized: true,
    }
}

/// The rules that the return of a function with so many items keeps.
pub(crate) fn return_rules(scope: &Scope, wanted: &[IrType], items: usize, ret: &[Label]) -> Rules
    ensures { result ≡ spec.return_rules (scope_values scope.now) wanted.now items ret.now }
{
    Rules {
        in_scope: are_in_scope(scope, ret),
        typed: have_types(scope, wanted, ret),
        counted: ret.len() == wanted.len(),
        sized: items <= ITEM_LIMIT,
    }
}
