ghost use Rattle.std.specs.Prelude.{◌≡◌, false};
ghost use Rattle.std.specs.Option.{option_map_or};
ghost use Rattle.mlir_ir.specs.Check.{IsWellFormed};
ghost use Rattle.mlir_ir.specs.Rules as rules;
ghost use Rattle.pass_copy.specs.InScope.{InScope};
ghost use Rattle.pass_copy.specs.Replaced.{Operation, StandsAt};
ghost use Rattle.pass_expand.specs.Expandable as spec;
ghost use Rattle.scev_tree.specs.Polynomial.{variable_of};
ghost use Rattle.scev_tree.specs.Tree.{polynomial_of, polynomials};

use arith_word::Label;
use mlir_ir::{Func, IrType, same_type};
use pass_copy::scope_of;
use scev_tree::{Expr, Tree};

/// The scope in which the loop with the label `target` begins, and a type.
#[derive(Clone, Copy)]
struct Place<'f> {
    f: &'f Func,
    target: Label,
    ty: IrType,
}

/// Whether the value is in scope with the type.
fn has_type(place: &Place, x: Label) -> bool
    requires formed { IsWellFormed place.now.f.now }
    requires stands { (o : Operation) × StandsAt place.now.f.now place.now.target.0 o }
    ensures { InScope place.now.f.now place.now.target.0
        (λ T. result ≡ option_map_or (rules.same_type place.now.ty) (T x.0) false) }
{
    match scope_of(place.f, place.target, x) {
        None => false,
        Some(found) => same_type(place.ty, found),
    }
}

/// Whether the variable is the symbol of a value that is in scope with the type.
fn is_symbol(place: &Place, counter: bool, x: Label) -> bool
    requires formed { IsWellFormed place.now.f.now }
    requires stands { (o : Operation) × StandsAt place.now.f.now place.now.target.0 o }
    ensures { InScope place.now.f.now place.now.target.0
        (λ T. result ≡ spec.is_symbol T place.now.ty (variable_of counter x.0)) }
{
    !counter && has_type(place, x)
}

#[cycle(expandable)]
fn tree_expands(place: &Place, t: &Tree) -> bool
    requires formed { IsWellFormed place.now.f.now }
    requires stands { (o : Operation) × StandsAt place.now.f.now place.now.target.0 o }
    ensures { InScope place.now.f.now place.now.target.0
        (λ T. result ≡ spec.expands T place.now.ty (polynomial_of t.now)) }
{
    match t {
        Tree::Num(_) => true,
        Tree::Ext { counter, var, ops } => {
            is_symbol(place, *counter, *var) && all_expand(place, ops.as_slice())
        }
    }
}

#[cycle(expandable)]
fn all_expand(place: &Place, ts: &[Tree]) -> bool
    requires formed { IsWellFormed place.now.f.now }
    requires stands { (o : Operation) × StandsAt place.now.f.now place.now.target.0 o }
    ensures { InScope place.now.f.now place.now.target.0
        (λ T. result ≡ spec.all_expand T place.now.ty (polynomials ts.now)) }
{
    for t in ts {
        if !tree_expands(place, t) {
            return false;
        }
    }
    true
}

/// Whether no counter stands in the expression, and each symbol has this type in the scope in which
/// the loop with the label `target` begins.
pub fn is_expandable(f: &Func, target: Label, ty: IrType, e: &Expr) -> bool
    requires formed { IsWellFormed f.now }
    requires stands { (o : Operation) × StandsAt f.now target.0 o }
    ensures { InScope f.now target.0
        (λ T. result ≡ spec.expands T ty (polynomial_of e.now.tree)) }
{
    tree_expands(&Place { f, target, ty }, &e.tree)
}
