//! A text written by hand.

use super::*;
use crate::functions::push_func;
use arith_word::{List, Text, Width};
use mlir_ir::{Arg, Func, IrType};
use std::alloc::{AllocError, Global};
use std::process::Abort;
use std::test::Fail;

/// `func.func private @p(i64) -> i32`.
fn declaration(alloc: Global, i64: IrType, i32: IrType) -> Result<Func, AllocError> {
    let arg = Arg {
        name: Text::from_str(alloc, "")?,
        ty: i64,
    };
    let mut args = Vec::new(alloc);
    args.push(arg)?;
    let mut results = Vec::new(alloc);
    results.push(i32)?;
    Ok(Func {
        index: 0,
        name: Text::from_str(alloc, "p")?,
        private: true,
        args: List::from_vec(args),
        results: List::from_vec(results),
        body: None,
    })
}

#[test]
fn a_declaration_has_types_alone(rt: HostRuntime) -> Result<(), Fail> {
    let alloc = rt.alloc();
    let i64 = IrType::Int(Width::new(64).ok_or("width")?);
    let i32 = IrType::Int(Width::new(32).ok_or("width")?);
    let f = declaration(alloc, i64, i32)?;
    f.check()?;
    let mut out = String::new(alloc);
    push_func(alloc, &mut out, &[], &f)?;
    assert_eq!(rt; out.as_str(), "func.func private @p(i64) -> i32\n");
    Ok(())
}
