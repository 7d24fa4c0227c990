ghost use Rattle.std.specs.Prelude.{◌≡◌, ◌++◌, map, IfOk};
ghost use Rattle.mlir_ir.specs.Resolved as resolved;
ghost use Rattle.mlir_ir.specs.Rules as rules;
ghost use Rattle.mlir_ir.specs.Source as source;
ghost use Rattle.mlir_scope.specs.Functions.{arg_names, called, signature_said, lines_said};
ghost use Rattle.mlir_scope.specs.Reading.{type_said, written_said, defined_said};
ghost use Rattle.mlir_scope.specs.Said.{said, line_said};

use crate::kinds::result_types;
use crate::phrase::{Line, inside};
use crate::said::{Defined, ValueType, Written, names_in, types_in};
use crate::uses::tys;
use mlir_ir::{Branch, Form, Token};
use std::alloc::{AllocError, Global};

/// Parameters: names with their types.
#[derive(Drop)]
pub struct Params<'a> {
    pub names: Vec<Defined<'a>>,
    pub types: Vec<Written>,
}

/// The parameters that stand directly there.
pub fn params_in<'a>(
    alloc: Global,
    tokens: &'a [Token],
    parts: &'a [Branch],
) -> Result<Params<'a>, AllocError>
    ensures names { IfOk result
        (λ v. map defined_said v.names.items
        ≡ map (λ (p : source.Defined × source.Written). p.0)
        (source.params_in (said tokens.now parts.now))) }
    ensures types { IfOk result
        (λ v. map written_said v.types.items
        ≡ map (λ (p : source.Defined × source.Written). p.1)
        (source.params_in (said tokens.now parts.now))) }
{
    let mut names = names_in(alloc, tokens, parts)?;
    let mut types = types_in(alloc, tokens, parts)?;
    let many = names.len().min(types.len());
    names.truncate(many);
    types.truncate(many);
    Ok(Params { names, types })
}

/// The arguments of a function. Those of a declaration have no names.
#[derive(Drop)]
pub struct Args<'a> {
    pub names: Vec<Defined<'a>>,
    pub types: Vec<ValueType>,
}

/// The arguments of a function.
pub fn args_of<'a>(alloc: Global, tokens: &'a [Token], f: Line<'a>) -> Result<Args<'a>, AllocError>
    ensures names { IfOk result
        (λ v. map defined_said v.names.items ≡ arg_names (said tokens.now f.entry.parts.now)) }
    ensures types { IfOk result
        (λ v. map type_said v.types.items
        ≡ rules.arg_types (resolved.func_args (line_said tokens.now f.entry))) }
{
    let params = params_in(alloc, tokens, inside(tokens, f.parts, Form::Params))?;
    let listed = types_in(alloc, tokens, inside(tokens, f.parts, Form::Types))?;
    let mut types = tys(alloc, &params.types)?;
    let mut names = params.names;
    'each: for t in &listed {
        names.push(Defined {
            at: t.at,
            name: &[],
        })?;
        types.push(t.ty)?;
    }
    Ok(Args { names, types })
}

/// The types of a function's arguments and of its results.
#[derive(Drop)]
pub struct Signature {
    pub args: Vec<ValueType>,
    pub results: Vec<ValueType>,
}

/// The types of a function.
fn signature_of(alloc: Global, tokens: &[Token], f: Line) -> Result<Signature, AllocError>
    ensures { IfOk result (λ s. signature_said s ≡ called (line_said tokens.now f.entry)) }
{
    let args = args_of(alloc, tokens, f)?;
    let results = result_types(alloc, tokens, f.parts)?;
    let results = tys(alloc, &results)?;
    Ok(Signature {
        args: args.types,
        results,
    })
}

/// The types of the functions.
pub fn signatures_of(
    alloc: Global,
    tokens: &[Token],
    funcs: &[Line],
) -> Result<Vec<Signature>, AllocError>
    ensures { IfOk result
        (λ v. map signature_said v.items ≡ map called (lines_said tokens.now funcs.now)) }
{
    let mut made = Vec::with_capacity(alloc, funcs.len())?;
    'each: for f in funcs {
        made.push(signature_of(alloc, tokens, *f)?)?;
    }
    Ok(made)
}
