ghost use Rattle.std.specs.Prelude.{◌≡◌, ◌++◌, false, length, replicate, reverse, IfOk, OnOk};
ghost use Rattle.pass_copy.specs.Built.{IsBehind, fresh_at};
ghost use Rattle.pass_expand.specs.Added.{Adds};
ghost use Rattle.pass_expand.specs.Expandable.{IsInSymbols, AreInSymbols};
ghost use Rattle.pass_expand.specs.Expanded as spec;
ghost use Rattle.pass_expand.specs.Terms.{terms, place_terms};
ghost use Rattle.scev_tree.specs.Polynomial.{num, variable_of};
ghost use Rattle.scev_tree.specs.Tree.{polynomial_of, polynomials};

use crate::term::add_term;
use arith_word::Label;
use mlir_ir::IrType;
use pass_copy::Out;
use scev_tree::{Expr, Tree};
use std::alloc::{AllocError, Global};

/// The sum of the terms so far, and the symbols of the place that the walk over a tree has come to,
/// the greatest first.
#[derive(Drop)]
struct Sum {
    ty: IrType,
    value: Option<Label>,
    symbols: Vec<Label>,
}

impl Sum {
    /// Adds the term of a number.
    fn add_number(&mut self, alloc: Global, out: &mut Out, v: u64) -> Result<(), AllocError>
        requires anew { out.old.fresh.kept ≡ false }
        ensures ty { self.new.ty ≡ self.old.ty }
        ensures symbols { self.new.symbols.items ≡ self.old.symbols.items }
        ensures value { OnOk result (self.new.value ≡ spec.sum_after out.old.at self.old.value
            (terms (num v) (reverse self.old.symbols.items))) }
        ensures built { OnOk result (Adds out.old self.old.ty
            (spec.steps self.old.ty out.old.at self.old.value
            (terms (num v) (reverse self.old.symbols.items))) out.new) }
    {
        if v != 0 {
            let symbols = self.symbols.as_slice();
            let value = add_term(alloc, out, &self.ty, self.value, v, symbols)?;
            self.value = Some(value);
        }
        Ok(())
    }

    /// Adds the terms of a tree.
    #[cycle(expanding)]
    fn add_tree(&mut self, alloc: Global, out: &mut Out, t: &Tree) -> Result<(), AllocError>
        requires anew { out.old.fresh.kept ≡ false }
        requires plain { IsInSymbols (polynomial_of t.now) }
        ensures ty { OnOk result (self.new.ty ≡ self.old.ty) }
        ensures symbols { OnOk result (self.new.symbols.items ≡ self.old.symbols.items) }
        ensures value { OnOk result (self.new.value ≡ spec.sum_after out.old.at self.old.value
            (terms (polynomial_of t.now) (reverse self.old.symbols.items))) }
        ensures built { OnOk result (Adds out.old self.old.ty
            (spec.steps self.old.ty out.old.at self.old.value
            (terms (polynomial_of t.now) (reverse self.old.symbols.items))) out.new) }
    {
        match t {
            Tree::Num(v) => self.add_number(alloc, out, *v),
            Tree::Ext { var, ops, .. } => {
                let depth = self.symbols.len();
                self.add_places(alloc, out, *var, ops.as_slice())?;
                self.symbols.truncate(depth);
                Ok(())
            }
        }
    }

    /// Adds the terms of the places of a symbol, which is pushed at each place.
    #[cycle(expanding)]
    fn add_places(
        &mut self,
        alloc: Global,
        out: &mut Out,
        x: Label,
        ts: &[Tree],
    ) -> Result<(), AllocError>
        requires anew { out.old.fresh.kept ≡ false }
        requires plain { AreInSymbols (polynomials ts.now) }
        ensures ty { OnOk result (self.new.ty ≡ self.old.ty) }
        ensures symbols { OnOk result (self.new.symbols.items
            ≡ self.old.symbols.items ++ replicate (length ts.now) x) }
        ensures value { OnOk result (self.new.value ≡ spec.sum_after out.old.at self.old.value
            (place_terms (variable_of false x.0) (polynomials ts.now)
            (reverse self.old.symbols.items))) }
        ensures built { OnOk result (Adds out.old self.old.ty
            (spec.steps self.old.ty out.old.at self.old.value
            (place_terms (variable_of false x.0) (polynomials ts.now)
            (reverse self.old.symbols.items))) out.new) }
    {
        for t in ts {
            self.add_tree(alloc, out, t)?;
            self.symbols.push(x)?;
        }
        Ok(())
    }
}

/// Adds the operations that compute an expression in symbols at a type. Returns the label of its
/// value.
pub fn expand(alloc: Global, out: &mut Out, ty: IrType, e: &Expr) -> Result<Label, AllocError>
    requires anew { out.old.fresh.kept ≡ false }
    requires plain { IsInSymbols (polynomial_of e.now.tree) }
    ensures label { IfOk result (λ l. l.0
        ≡ spec.expansion_end out.old.at (polynomial_of e.now.tree)) }
    ensures built { OnOk result (IsBehind out.old (spec.expansion (fresh_at out.old) ty
        out.old.fresh.given out.old.at (polynomial_of e.now.tree)) out.new) }
{
    let mut sum = Sum {
        ty,
        value: None,
        symbols: Vec::new(alloc),
    };
    sum.add_tree(alloc, out, &e.tree)?;
    match sum.value {
        Some(value) => Ok(value),
        None => out.constant(alloc, sum.ty, 0),
    }
}
