ghost use Rattle.std.specs.Prelude.{◌≡◌, IfOk, string_bytes};
ghost use Rattle.mlir_ir.specs.Check.{IsWellFormed};
ghost use Rattle.scev_text.specs.Naming.{naming_of};
ghost use Rattle.scev_text.specs.Texts.{expr_text as text_of_expr, turns_text as text_of_turns};

use crate::expressions::push_expr;
use crate::naming::ValueNames;
use crate::trip_counts::push_turns;
use mlir_ir::Func;
use scev_tree::Expr;
use std::alloc::{AllocError, Global};
use trip_count::Turns;

/// The text of an expression of a function's variables.
pub fn expr_text(alloc: Global, f: &Func, e: &Expr) -> Result<String, AllocError>
    requires { IsWellFormed f.now }
    ensures { IfOk result (λ text. string_bytes text ≡ text_of_expr (naming_of f.now) e.now) }
{
    let names = ValueNames::new(alloc, f)?;
    let mut text = String::new(alloc);
    push_expr(&mut text, &names, e)?;
    Ok(text)
}

/// The text of the trip count of a function's loop.
pub fn turns_text(alloc: Global, f: &Func, t: &Turns) -> Result<String, AllocError>
    requires { IsWellFormed f.now }
    ensures { IfOk result (λ text. string_bytes text ≡ text_of_turns (naming_of f.now) t.now) }
{
    let names = ValueNames::new(alloc, f)?;
    let mut text = String::new(alloc);
    push_turns(&mut text, &names, t)?;
    Ok(text)
}
