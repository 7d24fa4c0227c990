ghost use Rattle.std.specs.Prelude.{◌≡◌, ◌≤◌, ◌++◌, List, map, OnOk};
ghost use Rattle.std.specs.List.{flat_map};
ghost use Rattle.mlir_ir.specs.Limits.{item_limit, op_limit};
ghost use Rattle.mlir_ir.specs.Values.{arg_values};
ghost use Rattle.mlir_ir.specs.declared.token.Token.{Token};
ghost use Rattle.mlir_ir.specs.Resolved as resolved;
ghost use Rattle.mlir_ir.specs.ScopeFaults as faults;
ghost use Rattle.mlir_ir.specs.Source as source;
ghost use Rattle.mlir_scope.specs.Blocks.{operations};
ghost use Rattle.mlir_scope.specs.Noted.{noted};
ghost use Rattle.mlir_scope.specs.Reading.{written_said};
ghost use Rattle.mlir_scope.specs.Said.{said, line_said};
ghost use Rattle.mlir_scope.specs.Walks.{Adds, Notes, in_scope, return_breaks};
ghost use Rattle.mlir_scope.specs.Texts.{funcs_in};

use crate::blocks::Ops;
use crate::endings::{ending_in, note_ending};
use crate::first::First;
use crate::kinds::result_types;
use crate::labels::note_wide;
use crate::limits::{add_item_tokens, add_op_tokens, note_over};
use crate::loops::note_over_names;
use crate::names::note_repeated;
use crate::phrase::{Line, inside, lines};
use crate::results::push_args;
use crate::said::Written;
use crate::scope::Scope;
use crate::signatures::{args_of, params_in};
use crate::text::Text;
use crate::uses::tys;
use crate::walk::note_block;
use crate::walked::Walked;
use mlir_ir::limits::{ARG_LIMIT, ITEM_LIMIT, OP_LIMIT, RESULT_LIMIT};
use mlir_ir::{Form, ScopeKind, Terminal};
use std::alloc::AllocError;

/// Notes the first type that is one too many.
#[tactic(auto, using(crate::proofs::Overs::over_found, crate::proofs::Overs::over_past))]
fn note_over_types(limit: usize, types: &[Written], first: &mut First)
    ensures { first.new.best
        ≡ noted first.old.best
        (faults.over limit (map (λ (t : source.Written). t.at) (map written_said types.now))) }
{
    if let Some(t) = types.get(limit) {
        first.note_if(true, t.at, ScopeKind::Limit);
    }
}

/// The operations of a body.
fn body_ops<'a>(body: Line<'a>) -> Ops<'a>
    ensures { (tokens : List Token) → operations tokens result
        ≡ source.block (said tokens body.entry.parts.now) }
{
    Ops {
        parts: body.parts,
        direct: true,
    }
}

/// Notes what operations break of the limits on their numbers.
#[tactic(auto, using(crate::proofs::Notes::noted_three))]
fn note_size(text: &Text, ops: Ops, first: &mut First) -> Result<(), AllocError>
    ensures { OnOk result
        (first.new.best
        ≡ noted first.old.best
        (faults.over item_limit (faults.item_tokens (operations text.now.tokens.now ops.entry))
        ++ faults.over op_limit (faults.op_tokens (operations text.now.tokens.now ops.entry))
        ++ faults.wide_items (operations text.now.tokens.now ops.entry))) }
{
    let mut items = Vec::new(text.alloc);
    add_item_tokens(&mut items, text.tokens, ops)?;
    let mut found = Vec::new(text.alloc);
    add_op_tokens(&mut found, text.tokens, ops)?;
    note_over(ITEM_LIMIT, &items, first);
    note_over(OP_LIMIT as usize, &found, first);
    note_wide(text, ops, first)
}

/// Notes what operations break with the arguments of a function in scope.
fn note_operations<'a>(
    text: &Text<'a>,
    f: Line<'a>,
    ops: Ops<'a>,
    w: &mut Walked<'a>,
) -> Result<(), AllocError>
    ensures { OnOk result
        (Adds w.old w.new
        (faults.block_breaks (funcs_in text.now) (operations text.now.tokens.now ops.entry) 0
        (in_scope w.old
        ++ arg_values 0 (resolved.func_args (line_said text.now.tokens.now f.entry))))
        (arg_values 0 (resolved.func_args (line_said text.now.tokens.now f.entry))
        ++ faults.defined_by (operations text.now.tokens.now ops.entry))) }
{
    let args = args_of(text.alloc, text.tokens, f)?;
    push_args(&mut w.scope, 0, &args.names, &args.types)?;
    note_block(text, 0, ops, w)?;
    Ok(())
}

/// Notes what the values break that a function returns.
fn note_return<'a>(
    text: &Text<'a>,
    f: Line<'a>,
    body: Line<'a>,
    w: &mut Walked<'a>,
) -> Result<(), AllocError>
    ensures { OnOk result
        (Notes w.old w.new
        (return_breaks (in_scope w.old) (line_said text.now.tokens.now f.entry)
        (line_said text.now.tokens.now body.entry))) }
{
    let results = result_types(text.alloc, text.tokens, f.parts)?;
    let results = tys(text.alloc, &results)?;
    let e = ending_in(text.alloc, text.tokens, body.parts, Terminal::Return)?;
    note_ending(text.alloc, &w.scope, &results, &e, &mut w.first)
}

/// Notes what the body of a function breaks.
fn note_body<'a>(
    text: &Text<'a>,
    f: Line<'a>,
    body: Line<'a>,
    first: &mut First,
) -> Result<(), AllocError>
    ensures { OnOk result
        (first.new.best
        ≡ noted first.old.best
        (faults.body_breaks (funcs_in text.now) (line_said text.now.tokens.now f.entry)
        (line_said text.now.tokens.now body.entry))) }
{
    let ops = body_ops(body);
    note_size(text, ops, first)?;
    let mut w = Walked {
        scope: Scope::new(text.alloc),
        first: *first,
    };
    note_operations(text, f, ops, &mut w)?;
    note_return(text, f, body, &mut w)?;
    *first = w.first;
    Ok(())
}

/// Notes what the bodies of a function break, of which there is at most one.
#[tactic(auto, using(crate::proofs::Notes::noted_more, crate::proofs::Parted::cut_here))]
fn note_bodies<'a>(
    text: &Text<'a>,
    f: Line<'a>,
    bodies: &[Line<'a>],
    first: &mut First,
) -> Result<(), AllocError>
    ensures { OnOk result
        (first.new.best
        ≡ noted first.old.best
        (flat_map (faults.body_breaks (funcs_in text.now) (line_said text.now.tokens.now f.entry))
        (map (line_said text.now.tokens.now) bodies.now))) }
{
    'each: for body in bodies {
        note_body(text, f, *body, first)?;
    }
    Ok(())
}

/// Notes what a function breaks.
pub fn note_func<'a>(text: &Text<'a>, f: Line<'a>, first: &mut First) -> Result<(), AllocError>
    ensures { OnOk result
        (first.new.best
        ≡ noted first.old.best
        (faults.func_breaks (funcs_in text.now) (line_said text.now.tokens.now f.entry))) }
{
    let params = inside(text.tokens, f.parts, Form::Params);
    let params = params_in(text.alloc, text.tokens, params)?;
    let args = args_of(text.alloc, text.tokens, f)?;
    let results = result_types(text.alloc, text.tokens, f.parts)?;
    let bodies = lines(text.alloc, text.tokens, f.parts, Form::Body)?;
    let mut none = Scope::new(text.alloc);
    note_repeated(&mut none, &params.names, first)?;
    note_over_names(ARG_LIMIT, &args.names, first);
    note_over_types(RESULT_LIMIT, &results, first);
    note_bodies(text, f, &bodies, first)?;
    Ok(())
}
