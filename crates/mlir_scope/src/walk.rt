ghost use Rattle.std.specs.Prelude.{◌≡◌, ◌≤◌, ◌+◌, ◌++◌, List, min, OnOk, IfOk};
ghost use Rattle.mlir_ir.specs.ScopeFaults as faults;
ghost use Rattle.mlir_ir.specs.Source as source;
ghost use Rattle.mlir_ir.specs.declared.token.Token.{Token};
ghost use Rattle.mlir_scope.specs.Blocks.{operations};
ghost use Rattle.mlir_scope.specs.Said.{said};
ghost use Rattle.mlir_scope.specs.Scopes.{scope_said};
ghost use Rattle.mlir_scope.specs.Texts.{funcs_in};
ghost use Rattle.mlir_scope.specs.Owns.{AreResults, values_of_own};
ghost use Rattle.mlir_scope.specs.Walked.{breaks_of_kind};
ghost use Rattle.mlir_scope.specs.Walks.{Notes, Adds, in_scope, breaks_of_else, breaks_of_body, breaks_before, breaks_after, for_values, while_values, after_values, breaks_of_if, breaks_of_for, breaks_of_while, packs_said, own_breaks, wanted_types};

use crate::blocks::{Operation, Ops, behind_word, next_op};
use crate::kinds::op_types;
use crate::loop_headers::{
    note_for_header, note_if_header, note_while_header, push_after, push_for, push_while, wanted_of,
};
use crate::loops::note_params;
use crate::operands::note_operands;
use crate::phrase::{head, word};
use crate::region_ends::{note_after_end, note_before_end, note_else_end, note_region_end};
use crate::results::{note_packs, push_results};
use crate::said::{Packed, ValueType, packs_in};
use crate::scope::Scope;
use crate::simple::note_simple;
use crate::text::Text;
use crate::walked::Walked;
use mlir_ir::limits::LOOP_LIMIT;
use mlir_ir::{Branch, Terminal};
use std::alloc::AllocError;

/// The results of an operation: their packs and their types.
#[derive(Drop)]
struct Own<'a> {
    packs: Vec<Packed<'a>>,
    types: Vec<ValueType>,
}

/// The operations of the first region of an operation.
fn first_ops(kind: &[Branch]) -> Ops
    ensures { (tokens : List Token) → operations tokens result
        ≡ source.region (said tokens kind.now) }
{
    Ops {
        parts: kind,
        direct: false,
    }
}

/// The operations of the second region of an operation.
fn second_ops<'a>(text: &Text<'a>, kind: &'a [Branch]) -> Ops<'a>
    ensures { operations text.now.tokens.now result
        ≡ source.region_behind (said text.now.tokens.now kind.now) }
{
    Ops {
        parts: behind_word(text.tokens, kind),
        direct: false,
    }
}

/// The number of open loops in a loop, as far as the limit goes.
fn one_more(loops: u32) -> u32
    requires { loops ≤ LOOP_LIMIT }
    ensures { result ≡ min (loops + 1) LOOP_LIMIT }
{
    (loops + 1).min(LOOP_LIMIT)
}

/// The results of an operation.
fn own_of<'a>(text: &Text<'a>, o: Operation<'a>) -> Result<Own<'a>, AllocError>
    ensures { IfOk result
        (λ own. AreResults own (packs_said text.now.tokens.now o.entry)
        (said text.now.tokens.now o.entry.kind.now)) }
{
    let types = op_types(text.alloc, text.tokens, o.kind)?;
    let packs = packs_in(text.alloc, text.tokens, o.parts)?;
    Ok(Own { packs, types })
}

/// Notes what the uses and the results of an operation break.
fn note_own<'a>(
    text: &Text<'a>,
    o: Operation<'a>,
    own: &Own<'a>,
    w: &mut Walked<'a>,
) -> Result<(), AllocError>
    requires { AreResults own.now (packs_said text.now.tokens.now o)
        (said text.now.tokens.now o.kind.now) }
    ensures { OnOk result
        (Notes w.old w.new
        (own_breaks (in_scope w.old) (packs_said text.now.tokens.now o.entry)
        (said text.now.tokens.now o.entry.kind.now))) }
{
    let at = word(text.tokens, o.kind).at;
    note_operands(text, &w.scope, o.kind, at, &mut w.first)?;
    note_packs(
        text.alloc,
        &mut w.scope,
        at,
        own.types.len(),
        &own.packs,
        &mut w.first,
    )?;
    Ok(())
}

/// Puts the results of an operation in scope.
fn push_own<'a>(own: &Own<'a>, scope: &mut Scope<'a>) -> Result<(), AllocError>
    ensures { OnOk result (scope_said scope.new ≡ scope_said scope.old ++ values_of_own own.now) }
{
    push_results(scope, &own.packs, &own.types)
}

/// Notes what the parameters behind `do` break.
fn note_after_params<'a>(
    text: &Text<'a>,
    kind: &'a [Branch],
    w: &mut Walked<'a>,
) -> Result<(), AllocError>
    ensures { OnOk result
        (Notes w.old w.new
        (faults.params_breaks (in_scope w.old) (source.word (said text.now.tokens.now kind.now)).at
        (wanted_types (said text.now.tokens.now kind.now))
        (source.after_params (said text.now.tokens.now kind.now)))) }
{
    let wanted = wanted_of(text, kind)?;
    note_params(text, kind, &wanted, w)?;
    Ok(())
}

/// Notes what the region of `else` breaks, and its end; or that the region is missing.
#[cycle(walking)]
fn note_else<'a>(
    text: &Text<'a>,
    loops: u32,
    kind: &'a [Branch],
    w: &mut Walked<'a>,
) -> Result<(), AllocError>
    requires { loops ≤ LOOP_LIMIT }
    ensures { OnOk result
        (Notes w.old w.new
        (breaks_of_else (funcs_in text.now) loops (in_scope w.old)
        (said text.now.tokens.now kind.now) (wanted_types (said text.now.tokens.now kind.now)))) }
{
    let len = w.scope.len();
    note_block(text, loops, second_ops(text, kind), w)?;
    note_else_end(text, kind, w)?;
    w.scope.truncate(len);
    Ok(())
}

/// Notes what an `scf.if` breaks.
#[cycle(walking)]
fn note_if<'a>(
    text: &Text<'a>,
    loops: u32,
    kind: &'a [Branch],
    w: &mut Walked<'a>,
) -> Result<(), AllocError>
    requires { loops ≤ LOOP_LIMIT }
    ensures { OnOk result
        (Notes w.old w.new
        (breaks_of_if (funcs_in text.now) loops (in_scope w.old)
        (said text.now.tokens.now kind.now))) }
{
    let len = w.scope.len();
    note_if_header(text, kind, w)?;
    note_block(text, loops, first_ops(kind), w)?;
    note_region_end(text, kind, w)?;
    w.scope.truncate(len);
    note_else(text, loops, kind, w)?;
    Ok(())
}

/// Notes what the body of an `scf.for` breaks, and its end.
#[cycle(walking)]
fn note_body<'a>(
    text: &Text<'a>,
    loops: u32,
    kind: &'a [Branch],
    w: &mut Walked<'a>,
) -> Result<(), AllocError>
    requires { loops ≤ LOOP_LIMIT }
    ensures { OnOk result
        (Notes w.old w.new
        (breaks_of_body (funcs_in text.now) loops
        (in_scope w.old
        ++ for_values (said text.now.tokens.now kind.now)
        (wanted_types (said text.now.tokens.now kind.now))) (said text.now.tokens.now kind.now)
        (wanted_types (said text.now.tokens.now kind.now)))) }
{
    let len = w.scope.len();
    push_for(text, kind, &mut w.scope)?;
    note_block(text, one_more(loops), first_ops(kind), w)?;
    note_region_end(text, kind, w)?;
    w.scope.truncate(len);
    Ok(())
}

/// Notes what an `scf.for` breaks.
#[cycle(walking)]
fn note_for<'a>(
    text: &Text<'a>,
    loops: u32,
    kind: &'a [Branch],
    w: &mut Walked<'a>,
) -> Result<(), AllocError>
    requires { loops ≤ LOOP_LIMIT }
    ensures { OnOk result
        (Notes w.old w.new
        (breaks_of_for (funcs_in text.now) loops (in_scope w.old)
        (said text.now.tokens.now kind.now))) }
{
    note_for_header(text, loops, kind, w)?;
    note_body(text, loops, kind, w)?;
    Ok(())
}

/// Notes what the region before `do` breaks, and its condition.
#[cycle(walking)]
fn note_before<'a>(
    text: &Text<'a>,
    loops: u32,
    kind: &'a [Branch],
    w: &mut Walked<'a>,
) -> Result<(), AllocError>
    requires { loops ≤ LOOP_LIMIT }
    ensures { OnOk result
        (Notes w.old w.new
        (breaks_before (funcs_in text.now) loops
        (in_scope w.old ++ while_values (said text.now.tokens.now kind.now))
        (said text.now.tokens.now kind.now) (wanted_types (said text.now.tokens.now kind.now)))) }
{
    let len = w.scope.len();
    push_while(text, kind, &mut w.scope)?;
    note_block(text, one_more(loops), first_ops(kind), w)?;
    note_before_end(text, kind, w)?;
    w.scope.truncate(len);
    Ok(())
}

/// Notes what the region behind `do` breaks, and its end.
#[cycle(walking)]
fn note_after<'a>(
    text: &Text<'a>,
    loops: u32,
    kind: &'a [Branch],
    w: &mut Walked<'a>,
) -> Result<(), AllocError>
    requires { loops ≤ LOOP_LIMIT }
    ensures { OnOk result
        (Notes w.old w.new
        (breaks_after (funcs_in text.now) loops
        (in_scope w.old ++ after_values (said text.now.tokens.now kind.now))
        (said text.now.tokens.now kind.now))) }
{
    let len = w.scope.len();
    push_after(text, kind, &mut w.scope)?;
    note_block(text, one_more(loops), second_ops(text, kind), w)?;
    note_after_end(text, kind, w)?;
    w.scope.truncate(len);
    Ok(())
}

/// Notes what an `scf.while` breaks.
#[cycle(walking)]
fn note_while<'a>(
    text: &Text<'a>,
    loops: u32,
    kind: &'a [Branch],
    w: &mut Walked<'a>,
) -> Result<(), AllocError>
    requires { loops ≤ LOOP_LIMIT }
    ensures { OnOk result
        (Notes w.old w.new
        (breaks_of_while (funcs_in text.now) loops (in_scope w.old)
        (said text.now.tokens.now kind.now))) }
{
    note_while_header(text, loops, kind, w)?;
    note_before(text, loops, kind, w)?;
    note_after_params(text, kind, w)?;
    note_after(text, loops, kind, w)?;
    Ok(())
}

/// Notes what an operation breaks besides its uses and its results.
#[cycle(walking)]
fn note_kind<'a>(
    text: &Text<'a>,
    loops: u32,
    kind: &'a [Branch],
    w: &mut Walked<'a>,
) -> Result<(), AllocError>
    requires { loops ≤ LOOP_LIMIT }
    ensures { OnOk result
        (Notes w.old w.new
        (breaks_of_kind (funcs_in text.now) loops (in_scope w.old)
        (said text.now.tokens.now kind.now))) }
{
    match head(text.tokens, kind) {
        Terminal::If => note_if(text, loops, kind, w),
        Terminal::For => note_for(text, loops, kind, w),
        Terminal::While => note_while(text, loops, kind, w),
        _ => {
            note_simple(text, &w.scope, kind, &mut w.first)?;
            Ok(())
        }
    }
}

/// Notes what operations break where so many loops are open, and puts their results in scope.
#[cycle(walking)]
pub fn note_block<'a>(
    text: &Text<'a>,
    loops: u32,
    ops: Ops<'a>,
    w: &mut Walked<'a>,
) -> Result<(), AllocError>
    requires { loops ≤ LOOP_LIMIT }
    ensures { OnOk result
        (Adds w.old w.new
        (faults.block_breaks (funcs_in text.now) (operations text.now.tokens.now ops.entry) loops
        (in_scope w.old)) (faults.defined_by (operations text.now.tokens.now ops.entry))) }
{
    let mut left = ops;
    'each: while let Some((o, rest)) = next_op(text.tokens, left) {
        left = rest;
        let own = own_of(text, o)?;
        note_own(text, o, &own, w)?;
        note_kind(text, loops, o.kind, w)?;
        push_own(&own, &mut w.scope)?;
    }
    Ok(())
}
