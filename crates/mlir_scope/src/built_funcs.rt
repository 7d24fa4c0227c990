ghost use Rattle.std.specs.Prelude.{◌≡◌, ◌++◌, [], map, length, OnOk, IfOk};
ghost use Rattle.std.specs.Option.{option_map};
ghost use Rattle.arith_word.specs.Labels.{label_at};
ghost use Rattle.mlir_ir.specs.Phrases as phrases;
ghost use Rattle.mlir_ir.specs.Reads.{phrase_in, plain_body, plain_func};
ghost use Rattle.mlir_ir.specs.Resolved as resolved;
ghost use Rattle.mlir_ir.specs.ScopeFaults.{text_breaks};
ghost use Rattle.mlir_ir.specs.Syntaxes.{StandsFor};
ghost use Rattle.mlir_ir.specs.Values as values;
ghost use Rattle.mlir_ir.specs.View.{view_items, view_ops};
ghost use Rattle.mlir_ir.specs.declared.syntax.Form.TheVariants as forms;
ghost use Rattle.mlir_scope.specs.Blocks.{operations};
ghost use Rattle.mlir_scope.specs.Built.{names_said, scope_at};
ghost use Rattle.mlir_scope.specs.BuiltFunctions as built;
ghost use Rattle.mlir_scope.specs.Reading.{type_said};
ghost use Rattle.mlir_scope.specs.Said.{said, line_said};

use crate::blocks::{Operation, Ops, next_op};
use crate::built_loops::push_params;
use crate::built_ops::build_op;
use crate::built_types::{args_of, ir_types, text_of};
use crate::kinds::{listed_results, own_types};
use crate::phrase::{Line, first_spot, has, inside, lines};
use crate::place::Place;
use crate::said::{Defined, ValueType, defined_at, unsigned};
use crate::simple_kinds::Origin;
use crate::unbuilt::Unbuilt;
use crate::use_labels::listed_labels;
use arith_word::{Label, List};
use mlir_ir::{Arg, Body, Branch, Form, Func, Item, Syntax, Terminal, Token};
use sqlite_items::Items;
use std::alloc::{AllocError, Global};
use std::slice;

/// So many empty names.
#[tactic(auto, using(crate::proofs::BuiltArgs::blank_more))]
fn blank_names<'a>(alloc: Global, count: usize) -> Result<Vec<Defined<'a>>, Unbuilt>
    ensures length { IfOk result (λ made. length made.items ≡ count) }
    ensures blank { IfOk result (λ made. built.AreBlank made.items) }
{
    let mut made = Vec::with_capacity(alloc, count)?;
    'each: while made.len() < count {
        made.push(Defined { at: 0, name: &[] })?;
    }
    Ok(made)
}

/// Arguments with empty names, which are put in scope.
fn unnamed_args<'a>(
    alloc: Global,
    place: &mut Place<'a>,
    types: &[ValueType],
) -> Result<List<Arg>, Unbuilt>
    ensures args { IfOk result (λ args. args ≡ built.blank_args (map type_said types.now)) }
    ensures scope { OnOk result (scope_at place.new ≡ scope_at place.old
        ++ values.arg_values place.old.next (built.blank_args (map type_said types.now))) }
{
    let names = blank_names(alloc, types.len())?;
    place.push_args(&names, types)?;
    let args = args_of(alloc, &names, types)?;
    Ok(args)
}

/// One list behind another.
fn joined(args: List<Arg>, more: List<Arg>) -> Result<List<Arg>, AllocError>
    ensures { IfOk result (λ all. all ≡ args ++ more) }
{
    let mut all = args.into_vec();
    let mut last = more.into_vec();
    all.append(&mut last)?;
    Ok(List::from_vec(all))
}

/// The arguments of a function, which are put in scope.
fn build_args<'a>(
    alloc: Global,
    tokens: &'a [Token],
    place: &mut Place<'a>,
    parts: &'a [Branch],
) -> Result<List<Arg>, Unbuilt>
    ensures args { IfOk result (λ args. args ≡ built.args_said (said tokens.now parts.now)) }
    ensures scope { OnOk result (scope_at place.new ≡ scope_at place.old
        ++ values.arg_values place.old.next (built.args_said (said tokens.now parts.now))) }
{
    let named = inside(tokens, parts, Form::Params);
    let params = push_params(alloc, tokens, place, named)?;
    let bare = inside(tokens, parts, Form::Types);
    let types = own_types(alloc, tokens, bare)?;
    let more = unnamed_args(alloc, place, types.as_slice())?;
    let args = joined(params, more)?;
    Ok(args)
}

/// An item, which is one operation, behind those before it.
fn build_item<'a>(
    alloc: Global,
    origin: Origin<'a>,
    place: &mut Place<'a>,
    func: u8,
    number: usize,
    o: Operation<'a>,
) -> Result<Item, Unbuilt>
    ensures built { IfOk result (λ item. view_ops item.ops
        ≡ built.item_said origin.entry func number o.entry place.old) }
    ensures scope { OnOk result (scope_at place.new ≡ scope_at place.old
        ++ resolved.values_of (label_at func number 0)
        (built.item_said origin.entry func number o.entry place.old)) }
{
    if number >= Label::ITEM_COUNT as usize {
        return Err(Unbuilt::NoRoom);
    }
    place.next = Label::new(func, number, 0).0;
    let mut ops = Vec::with_capacity(alloc, 1)?;
    ops.push(build_op(alloc, origin, place, o)?)?;
    Ok(Item {
        ops: Items::from_vec(ops),
    })
}

/// The items of a function, from its arguments on. Their values are in scope behind them.
#[tactic(auto, using(crate::proofs::BuiltItems::items_step, crate::proofs::BuiltItems::items_made, crate::proofs::BuiltItems::items_behind))]
fn build_items<'a>(
    alloc: Global,
    origin: Origin<'a>,
    place: &mut Place<'a>,
    func: u8,
    ops: Ops<'a>,
) -> Result<Vec<Item>, Unbuilt>
    ensures built { IfOk result (λ made. view_items made.items
        ≡ built.items_said origin.entry func ops.entry place.old) }
    ensures scope { OnOk result (scope_at place.new ≡ scope_at place.old
        ++ resolved.values_of_items func 1
        (built.items_said origin.entry func ops.entry place.old)) }
{
    let mut made = Vec::new(alloc);
    let mut left = ops;
    let mut number = 1;
    'each: while let Some((o, rest)) = next_op(origin.tokens, left) {
        left = rest;
        made.push(build_item(alloc, origin, place, func, number, o)?)?;
        number = made.len() + 1;
    }
    Ok(made)
}

/// The body of a function whose arguments are in scope.
fn build_body<'a>(
    alloc: Global,
    origin: Origin<'a>,
    place: &mut Place<'a>,
    func: u8,
    parts: &'a [Branch],
) -> Result<Body, Unbuilt>
    ensures { IfOk result (λ body. plain_body body
        ≡ built.body_said (names_said origin.entry.funcs.now) func (scope_at place.old)
        (said origin.entry.tokens.now parts.now)) }
{
    let ops = Ops {
        parts,
        direct: true,
    };
    let items = build_items(alloc, origin, place, func, ops)?;
    let ends = inside(origin.tokens, parts, Form::Ends);
    let ret = listed_labels(alloc, origin.tokens, &place.scope, ends)?;
    Ok(Body {
        items: List::from_vec(items),
        ret,
    })
}

/// The body of a function, where it has one.
fn first_body<'a>(
    alloc: Global,
    origin: Origin<'a>,
    place: &mut Place<'a>,
    func: u8,
    parts: &'a [Branch],
) -> Result<Option<Body>, Unbuilt>
    ensures { IfOk result (λ body. option_map plain_body body
        ≡ built.first_body (names_said origin.entry.funcs.now) func (scope_at place.old)
        (phrases.lines forms.Body (said origin.entry.tokens.now parts.now))) }
{
    let bodies = lines(alloc, origin.tokens, parts, Form::Body)?;
    let bodies = bodies.as_slice();
    match bodies.split_first() {
        Some((first, _)) => {
            let body = build_body(alloc, origin, place, func, first.parts)?;
            Ok(Some(body))
        }
        None => Ok(None),
    }
}

/// The function with that index.
fn build_func<'a>(
    alloc: Global,
    origin: Origin<'a>,
    index: u8,
    line: Line<'a>,
) -> Result<Func, Unbuilt>
    ensures { IfOk result (λ func. plain_func func
        ≡ resolved.func_of (names_said origin.entry.funcs.now) index
        (line_said origin.entry.tokens.now line.entry)) }
{
    let tokens = origin.tokens;
    let parts = line.parts;
    let mut place = Place::new(alloc);
    place.next = Label::new(index, 0, 0).0;
    let args = build_args(alloc, tokens, &mut place, parts)?;
    let types = listed_results(alloc, tokens, parts)?;
    let results = ir_types(alloc, &types)?;
    let symbol = unsigned(first_spot(tokens, parts, Terminal::Symbol).text);
    let name = text_of(alloc, symbol)?;
    let body = first_body(alloc, origin, &mut place, index, parts)?;
    Ok(Func {
        index,
        name,
        private: has(tokens, parts, Terminal::Private),
        args,
        results,
        body,
    })
}

/// The names of functions.
fn func_names<'a>(
    alloc: Global,
    tokens: &'a [Token],
    funcs: &[Line<'a>],
) -> Result<Vec<Defined<'a>>, Unbuilt>
    ensures { IfOk result (λ made. names_said made.items
        ≡ map resolved.func_name (map (line_said tokens.now) funcs.now)) }
{
    let mut made = Vec::with_capacity(alloc, funcs.len())?;
    'each: for func in funcs {
        made.push(defined_at(first_spot(tokens, func.parts, Terminal::Symbol)))?;
    }
    Ok(made)
}

/// The functions of those lines.
fn build_funcs<'a>(
    alloc: Global,
    origin: Origin<'a>,
    funcs: &[Line<'a>],
) -> Result<Vec<Func>, Unbuilt>
    ensures { IfOk result (λ made. map plain_func made.items
        ≡ resolved.funcs_from (names_said origin.entry.funcs.now) 0
        (map (line_said origin.entry.tokens.now) funcs.now)) }
{
    let mut made = Vec::with_capacity(alloc, funcs.len())?;
    'each: for (index, func) in funcs.iter().enumerate() {
        if index > usize::from(u8::MAX) {
            return Err(Unbuilt::NoRoom);
        }
        made.push(build_func(alloc, origin, index as u8, *func)?)?;
    }
    Ok(made)
}

/// The functions of a syntax, where each of its numbers and names has room in the program's types.
fn built_functions(alloc: Global, syntax: &Syntax) -> Result<Vec<Func>, Unbuilt>
    ensures { IfOk result (λ funcs. map plain_func funcs.items
        ≡ resolved.funcs_of (phrase_in syntax.now)) }
{
    let tokens = syntax.tokens.as_slice();
    let root = slice::from_ref(&syntax.root);
    let found = lines(alloc, tokens, inside(tokens, root, Form::Whole), Form::Func)?;
    let names = func_names(alloc, tokens, &found)?;
    let origin = Origin {
        tokens,
        funcs: names.as_slice(),
    };
    build_funcs(alloc, origin, &found)
}

/// The functions that a syntax without breaks stands for.
///
/// # Errors
///
/// Where memory is refused. The same error stands for a number or a name that has no room in the
/// program's types.
pub fn functions(alloc: Global, syntax: &Syntax) -> Result<Vec<Func>, AllocError>
    requires stands { StandsFor syntax.now syntax.now.tokens }
    requires keeps { text_breaks syntax.now.tokens (phrase_in syntax.now) ≡ [] }
    ensures { IfOk result (λ funcs. map plain_func funcs.items
        ≡ resolved.funcs_of (phrase_in syntax.now)) }
{
    match built_functions(alloc, syntax) {
        Ok(funcs) => Ok(funcs),
        Err(_) => Err(AllocError),
    }
}
