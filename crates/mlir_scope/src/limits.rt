ghost use Rattle.std.specs.Prelude.{◌≡◌, ◌++◌, map, OnOk};
ghost use Rattle.mlir_ir.specs.ScopeFaults as faults;
ghost use Rattle.mlir_scope.specs.Blocks.{operations};
ghost use Rattle.mlir_ir.specs.Source as source;
ghost use Rattle.mlir_scope.specs.Noted.{noted};
ghost use Rattle.mlir_scope.specs.Said.{said};

use crate::blocks::{Ops, behind_word, may_have_regions, next_op};
use crate::first::First;
use mlir_ir::limits::NAME_LIMIT;
use mlir_ir::{Branch, ScopeKind, Token, TokenKind};
use std::alloc::AllocError;

/// Puts the tokens where the operations in the regions of an operation begin behind those found.
#[cycle(counting)]
fn add_inner_tokens(
    found: &mut Vec<u32>,
    tokens: &[Token],
    kind: &[Branch],
) -> Result<(), AllocError>
    ensures { OnOk result (found.new.items ≡ found.old.items
        ++ (faults.op_tokens (source.region (said tokens.now kind.now))
        ++ faults.op_tokens (source.region_behind (said tokens.now kind.now)))) }
{
    if !may_have_regions(tokens, kind) {
        return Ok(());
    }
    let first = Ops {
        parts: kind,
        direct: false,
    };
    add_op_tokens(found, tokens, first)?;
    let second = Ops {
        parts: behind_word(tokens, kind),
        direct: false,
    };
    add_op_tokens(found, tokens, second)?;
    Ok(())
}

/// Puts the tokens where operations begin, those of their regions too, behind those found.
#[cycle(counting)]
pub fn add_op_tokens(found: &mut Vec<u32>, tokens: &[Token], ops: Ops) -> Result<(), AllocError>
    ensures { OnOk result
        (found.new.items ≡ found.old.items ++ faults.op_tokens (operations tokens.now ops.entry)) }
{
    let mut left = ops;
    'each: while let Some((o, rest)) = next_op(tokens, left) {
        left = rest;
        found.push(o.at)?;
        add_inner_tokens(found, tokens, o.kind)?;
    }
    Ok(())
}

/// Puts the tokens where operations begin, without those of their regions, behind those found.
pub fn add_item_tokens(found: &mut Vec<u32>, tokens: &[Token], ops: Ops) -> Result<(), AllocError>
    ensures { OnOk result
        (found.new.items ≡ found.old.items
        ++ faults.item_tokens (operations tokens.now ops.entry)) }
{
    let mut left = ops;
    'each: while let Some((o, rest)) = next_op(tokens, left) {
        left = rest;
        found.push(o.at)?;
    }
    Ok(())
}

/// Notes the first of some tokens that is one too many.
pub fn note_over(limit: usize, found: &[u32], first: &mut First)
    ensures { first.new.best ≡ noted first.old.best (faults.over limit found.now) }
{
    if let Some(token) = found.get(limit) {
        first.note_if(true, *token, ScopeKind::Limit);
    }
}

/// Whether a token of the kind has a name of its own.
pub fn has_value_name(kind: TokenKind) -> bool
    ensures { result ≡ faults.has_value_name kind }
{
    match kind {
        TokenKind::Value => true,
        TokenKind::Symbol => true,
        TokenKind::Caret => true,
        TokenKind::Word => false,
        TokenKind::Pick => false,
        TokenKind::Number => false,
        TokenKind::Mark => false,
    }
}
