ghost use Rattle.std.specs.Prelude.{◌≡◌, ◌≤◌, ◌<◌, ◌+◌, ◌++◌, ◌^◌, None, List, [], length, map, OnOk, IfOk};
ghost use Rattle.std.specs.List.{flat_map};
ghost use Rattle.mlir_ir.specs.Phrases as phrases;
ghost use Rattle.mlir_ir.specs.Phrases.{phrase_of};
ghost use Rattle.mlir_ir.specs.Reads.{phrase_in};
ghost use Rattle.mlir_ir.specs.ScopeFaults as faults;
ghost use Rattle.mlir_ir.specs.Source as source;
ghost use Rattle.mlir_ir.specs.Syntaxes.{StandsFor};
ghost use Rattle.mlir_ir.specs.Trees.{put};
ghost use Rattle.mlir_ir.specs.Trees as trees;
ghost use Rattle.mlir_ir.specs.declared.syntax.Form.TheVariants as forms;
ghost use Rattle.mlir_ir.specs.declared.token.Token.{Token};
ghost use Rattle.mlir_scope.specs.Functions.{lines_said};
ghost use Rattle.mlir_scope.specs.Noted.{noted};
ghost use Rattle.mlir_scope.specs.Reading.{defined_said};
ghost use Rattle.mlir_scope.specs.Said.{said, line_said};
ghost use Rattle.mlir_scope.specs.Texts.{funcs_in};
ghost use Rattle.mlir_scope.specs.TextParts.{has_long_name, list_breaks};

use crate::blocks::Ops;
use crate::first::{First, ScopeFault};
use crate::function_faults::note_func;
use crate::limits::{add_op_tokens, has_value_name, note_over};
use crate::names::note_repeated;
use crate::phrase::{Line, first_spot, lines};
use crate::said::{Defined, defined_at};
use crate::scope::Scope;
use crate::text::Text;
use mlir_ir::limits::{FUNC_LIMIT, MODULE_OP_LIMIT, NAME_LIMIT};
use mlir_ir::{Branch, Form, ScopeKind, Syntax, Terminal, Token, is_same_form};
use std::alloc::{AllocError, Global};

/// Whether the token's name has too many bytes; the sign before it counts for none.
fn is_long(token: &Token) -> bool
    ensures { result ≡ has_long_name token.now }
{
    has_value_name(token.kind) && token.text.as_bytes().len() > NAME_LIMIT + 1
}

/// Notes the tokens whose names have too many bytes.
#[tactic(auto, using(crate::proofs::Notes::noted_more, crate::proofs::Parted::cut_here))]
fn note_long(tokens: &[Token], first: &mut First)
    requires { length tokens.now < 2 ^ 32 }
    ensures { first.new.best ≡ noted first.old.best (faults.long_names 0 tokens.now) }
{
    'each: for (i, token) in tokens.iter().enumerate() {
        first.note_if(is_long(token), i as u32, ScopeKind::Limit);
    }
}

/// The parts of the whole text.
fn whole(root: &Branch) -> &[Branch]
    ensures { (tokens : List Token) → said tokens result.now
        ≡ phrases.inside forms.Whole (phrase_of tokens (put root.now trees.none)) }
{
    if is_same_form(Form::Whole, root.form) {
        root.parts.as_slice()
    } else {
        &[]
    }
}

/// The tokens where functions begin.
fn func_tokens(alloc: Global, funcs: &[Line]) -> Result<Vec<u32>, AllocError>
    ensures { (tokens : List Token) → IfOk result (λ v. v.items
        ≡ map (λ (f : phrases.Line). f.at) (lines_said tokens funcs.now)) }
{
    let mut made = Vec::with_capacity(alloc, funcs.len())?;
    'each: for f in funcs {
        made.push(f.at)?;
    }
    Ok(made)
}

/// The names of the functions.
fn func_names<'a>(
    alloc: Global,
    tokens: &'a [Token],
    funcs: &[Line<'a>],
) -> Result<Vec<Defined<'a>>, AllocError>
    ensures { IfOk result (λ v. map defined_said v.items
        ≡ faults.func_names (lines_said tokens.now funcs.now)) }
{
    let mut made = Vec::with_capacity(alloc, funcs.len())?;
    'each: for f in funcs {
        made.push(defined_at(first_spot(tokens, f.parts, Terminal::Symbol)))?;
    }
    Ok(made)
}

/// Puts the tokens where the operations of a function begin behind those found.
fn add_func_ops(found: &mut Vec<u32>, tokens: &[Token], bodies: &[Line]) -> Result<(), AllocError>
    ensures { OnOk result (found.new.items ≡ found.old.items
        ++ flat_map (λ (body : phrases.Line). faults.op_tokens (source.block body.parts))
        (lines_said tokens.now bodies.now)) }
{
    'each: for body in bodies {
        add_op_tokens(
            found,
            tokens,
            Ops {
                parts: body.parts,
                direct: true,
            },
        )?;
    }
    Ok(())
}

/// Puts the tokens where the operations of a function begin behind those found.
fn add_line_ops(
    alloc: Global,
    found: &mut Vec<u32>,
    tokens: &[Token],
    f: Line,
) -> Result<(), AllocError>
    ensures { OnOk result (found.new.items ≡ found.old.items
        ++ faults.func_op_tokens (line_said tokens.now f.entry)) }
{
    let bodies = lines(alloc, tokens, f.parts, Form::Body)?;
    add_func_ops(found, tokens, &bodies)
}

/// Notes what the functions break, and puts the tokens where their operations begin behind those
/// found.
#[tactic(auto, using(crate::proofs::Notes::noted_more, crate::proofs::Parted::cut_here, crate::proofs::TextNotes::op_tokens_step))]
fn note_funcs<'a>(
    text: &Text<'a>,
    funcs: &[Line<'a>],
    ops: &mut Vec<u32>,
    first: &mut First,
) -> Result<(), AllocError>
    ensures noted { OnOk result
        (first.new.best
        ≡ noted first.old.best
        (flat_map (faults.func_breaks (funcs_in text.now))
        (map (line_said text.now.tokens.now) funcs.now))) }
    ensures ops { OnOk result
        (ops.new.items ≡ ops.old.items
        ++ flat_map faults.func_op_tokens (map (line_said text.now.tokens.now) funcs.now)) }
{
    'each: for f in funcs {
        add_line_ops(text.alloc, ops, text.tokens, *f)?;
        note_func(text, *f, first)?;
    }
    Ok(())
}

/// Notes what the functions break together besides the number of their operations: how many they
/// are, and their names.
#[tactic(auto, using(crate::proofs::Notes::noted_two))]
fn note_module(
    alloc: Global,
    tokens: &[Token],
    funcs: &[Line],
    first: &mut First,
) -> Result<(), AllocError>
    ensures { OnOk result (first.new.best
        ≡ noted first.old.best (list_breaks (lines_said tokens.now funcs.now))) }
{
    let found = func_tokens(alloc, funcs)?;
    let names = func_names(alloc, tokens, funcs)?;
    let mut none = Scope::new(alloc);
    note_over(FUNC_LIMIT, &found, first);
    note_repeated(&mut none, &names, first)
}

/// The break that counts of a syntax: the one with the least token, and of several at one token the
/// first kind. `None` where the syntax breaks no rule.
pub fn first_fault(alloc: Global, syntax: &Syntax) -> Result<Option<ScopeFault>, AllocError>
    requires stands { StandsFor syntax.now syntax.now.tokens }
    ensures { IfOk result (λ best. best
        ≡ noted None (faults.text_breaks syntax.now.tokens (phrase_in syntax.now))) }
{
    let tokens = syntax.tokens.as_slice();
    let _length = syntax.length;
    let funcs = lines(alloc, tokens, whole(&syntax.root), Form::Func)?;
    let mut first = First::new();
    note_long(tokens, &mut first);
    note_module(alloc, tokens, &funcs, &mut first)?;
    let text = Text::new(alloc, tokens, &funcs)?;
    let mut ops = Vec::new(alloc);
    note_funcs(&text, &funcs, &mut ops, &mut first)?;
    note_over(MODULE_OP_LIMIT as usize, &ops, &mut first);
    Ok(first.best)
}
