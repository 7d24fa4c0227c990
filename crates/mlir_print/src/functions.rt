ghost use Rattle.std.specs.Prelude.{◌≡◌, ◌++◌, codes, map, OnOk, IfOk, All, None, Some, slice_get, string_bytes};
ghost use Rattle.std.specs.Option.{option_map};
ghost use Rattle.mlir_ir.specs.Canonical.{Naming, arg_text, arrow_text, body_text, bracketed, ends_text, func_text, head_text, items_text, joined, line, module_text, naming_of};
ghost use Rattle.mlir_ir.specs.Check.{IsWellFormed};

use crate::depth::Depth;
use crate::lists::{push_arg_types, push_args, push_arrow};
use crate::naming::Names;
use crate::operations::push_ops;
use crate::uses::push_ends;
use mlir_ir::{Body, Func, Item, Module};
use std::alloc::{AllocError, Global};

fn push_items(out: &mut String, names: &Names<'_>, items: &[Item]) -> Result<(), AllocError>
    ensures { OnOk result
        (string_bytes out.new ≡ string_bytes out.old ++ items_text names.now items.now) }
{
    let outside = Depth::Outside;
    let depth = Depth::Inside(&outside);
    for item in items {
        push_ops(out, names, &depth, item.ops.as_slice())?;
    }
    Ok(())
}

fn push_head(out: &mut String, func: &Func) -> Result<(), AllocError>
    ensures { OnOk result (string_bytes out.new ≡ string_bytes out.old ++ head_text func.now) }
{
    let name = &func.name;
    if func.private {
        write!(out, "func.func private @{name}")
    } else {
        write!(out, "func.func @{name}")
    }
}

/// Adds a declaration, which is one line with types alone.
fn push_declaration(out: &mut String, func: &Func) -> Result<(), AllocError>
    ensures { OnOk result
        ((naming : Naming) → string_bytes out.new ≡ string_bytes out.old
        ++ body_text naming func.now None) }
{
    push_head(out, func)?;
    write!(out, "(")?;
    push_arg_types(out, func.args.as_slice())?;
    write!(out, ")")?;
    push_arrow(out, func.results.as_slice())?;
    writeln!(out)?;
    Ok(())
}

/// Adds the first line of a function with a body.
fn push_opening(out: &mut String, func: &Func) -> Result<(), AllocError>
    ensures { OnOk result
        (string_bytes out.new ≡ string_bytes out.old
        ++ line 0 (head_text func.now ++ bracketed (joined (map arg_text func.now.args))
        ++ arrow_text func.now.results ++ codes " {")) }
{
    push_head(out, func)?;
    push_args(out, func.args.as_slice())?;
    push_arrow(out, func.results.as_slice())?;
    writeln!(out, " {{")?;
    Ok(())
}

/// Adds the last lines of a function with a body.
fn push_return(out: &mut String, names: &Names<'_>, body: &Body) -> Result<(), AllocError>
    ensures { OnOk result
        (string_bytes out.new ≡ string_bytes out.old
        ++ (line 1 (codes "return" ++ ends_text names.now body.now.ret) ++ line 0 (codes "}"))) }
{
    write!(out, "  return")?;
    push_ends(out, names, body.ret.as_slice())?;
    write!(out, "\n}}\n")?;
    Ok(())
}

/// Adds a function with a body.
fn push_definition(
    alloc: Global,
    out: &mut String,
    funcs: &[Func],
    func: &Func,
    body: &Body,
) -> Result<(), AllocError>
    requires { IsWellFormed func.now }
    ensures { OnOk result
        (string_bytes out.new ≡ string_bytes out.old
        ++ body_text (naming_of (map (λ f. f.name) funcs.now) func.now) func.now (Some body.now)) }
{
    let names = Names::new(alloc, funcs, func)?;
    push_opening(out, func)?;
    push_items(out, &names, body.items.as_slice())?;
    push_return(out, &names, body)?;
    Ok(())
}

/// Adds a function of a module with these functions.
pub(crate) fn push_func(
    alloc: Global,
    out: &mut String,
    funcs: &[Func],
    func: &Func,
) -> Result<(), AllocError>
    requires { IsWellFormed func.now }
    ensures { OnOk result
        (string_bytes out.new ≡ string_bytes out.old
        ++ func_text (map (λ f. f.name) funcs.now) func.now) }
{
    match &func.body {
        Some(body) => push_definition(alloc, out, funcs, func, body)?,
        None => push_declaration(out, func)?,
    }
    Ok(())
}

/// The canonical text of a module of well-formed functions: one line an operation or terminator,
/// each region two blanks deeper than the line that opens it. It fails only where memory runs out.
pub fn print(alloc: Global, m: &Module) -> Result<String, AllocError>
    requires formed { All IsWellFormed m.now.funcs }
    ensures { IfOk result (λ text. string_bytes text ≡ module_text m.now.funcs) }
{
    let mut out = String::new(alloc);
    let funcs = m.funcs.as_slice();
    for func in funcs {
        push_func(alloc, &mut out, funcs, func)?;
    }
    Ok(out)
}

/// The canonical text of the function with that index; `None` where the module has none. It fails
/// only where memory runs out.
pub fn print_func(alloc: Global, m: &Module, f: u16) -> Result<Option<String>, AllocError>
    requires formed { All IsWellFormed m.now.funcs }
    ensures { IfOk result
        (λ text. option_map string_bytes text
        ≡ option_map (func_text (map (λ g. g.name) m.now.funcs)) (slice_get m.now.funcs f)) }
{
    let funcs = m.funcs.as_slice();
    let at = f as usize;
    if at >= funcs.len() {
        return Ok(None);
    }
    let mut out = String::new(alloc);
    push_func(alloc, &mut out, funcs, &funcs[at])?;
    Ok(Some(out))
}

/// The canonical text of a well-formed function that stands beside the functions of a module, which
/// its calls name: of one that a pass has made of theirs, say. It fails only where memory runs out.
pub fn print_beside(alloc: Global, m: &Module, f: &Func) -> Result<String, AllocError>
    requires formed { IsWellFormed f.now }
    ensures { IfOk result
        (λ text. string_bytes text ≡ func_text (map (λ g. g.name) m.now.funcs) f.now) }
{
    let mut out = String::new(alloc);
    push_func(alloc, &mut out, m.funcs.as_slice(), f)?;
    Ok(out)
}
