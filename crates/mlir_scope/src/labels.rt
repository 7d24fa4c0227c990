ghost use Rattle.std.specs.Prelude.{◌≡◌, ◌≤◌, ◌+◌, min, IfOk, OnOk};
ghost use Rattle.mlir_ir.specs.ScopeFaults as faults;
ghost use Rattle.mlir_ir.specs.Source as source;
ghost use Rattle.mlir_scope.specs.Blocks.{operations, with_operation};
ghost use Rattle.mlir_scope.specs.Noted.{noted};
ghost use Rattle.mlir_scope.specs.Said.{said};
ghost use Rattle.mlir_scope.specs.Texts.{funcs_in};

use crate::blocks::{Operation, Ops, behind_word, may_have_regions, next_op};
use crate::digits::CAP;
use crate::first::First;
use crate::kinds::inits_of;
use crate::loops::after_params;
use crate::phrase::head;
use crate::results::total;
use crate::said::packs_in;
use crate::text::Text;
use mlir_ir::limits::LABEL_LIMIT;
use mlir_ir::{Branch, ScopeKind, Terminal};
use std::alloc::AllocError;

/// The labels of a loop's counter and variables, cut at `CAP`.
#[tactic(auto, using(crate::proofs::LabelCounts::no_header))]
fn header_labels(text: &Text, kind: &[Branch]) -> Result<u128, AllocError>
    ensures value { IfOk result
        (λ n. n ≡ min
        (faults.header_labels (source.head (said text.now.tokens.now kind.now))
        (said text.now.tokens.now kind.now)) CAP) }
    ensures most { IfOk result (λ n. n ≤ CAP) }
{
    match head(text.tokens, kind) {
        Terminal::For => {
            let inits = inits_of(text.alloc, text.tokens, kind)?;
            Ok((2 + inits.uses.len() as u128).min(CAP))
        }
        Terminal::While => {
            let inits = inits_of(text.alloc, text.tokens, kind)?;
            let params = after_params(text, kind)?;
            let many = 1 + inits.uses.len() as u128 + params.types.len() as u128;
            Ok(many.min(CAP))
        }
        _ => Ok(0),
    }
}

/// How many labels an operation takes, cut at `CAP`.
#[cycle(labeling)]
fn op_labels(text: &Text, o: Operation) -> Result<u128, AllocError>
    ensures value { IfOk result
        (λ n. n ≡ min
        (faults.block_labels (with_operation text.now.tokens.now o.entry source.none)) CAP) }
    ensures most { IfOk result (λ n. n ≤ CAP) }
{
    let packs = packs_in(text.alloc, text.tokens, o.parts)?;
    let header = header_labels(text, o.kind)?;
    let inner = inner_labels(text, o.kind)?;
    Ok((header + inner + total(&packs)).min(CAP))
}

/// How many labels the operations in the regions of an operation take, cut at `CAP`.
#[cycle(labeling)]
fn inner_labels(text: &Text, kind: &[Branch]) -> Result<u128, AllocError>
    ensures value { IfOk result
        (λ n. n ≡ min (faults.block_labels (source.region (said text.now.tokens.now kind.now))
        + faults.block_labels (source.region_behind (said text.now.tokens.now kind.now))) CAP) }
    ensures most { IfOk result (λ n. n ≤ CAP) }
{
    if !may_have_regions(text.tokens, kind) {
        return Ok(0);
    }
    let first = Ops {
        parts: kind,
        direct: false,
    };
    let first = block_labels(text, first)?;
    let second = Ops {
        parts: behind_word(text.tokens, kind),
        direct: false,
    };
    let second = block_labels(text, second)?;
    Ok((first + second).min(CAP))
}

/// How many labels operations take, cut at `CAP`.
#[cycle(labeling)]
fn block_labels(text: &Text, ops: Ops) -> Result<u128, AllocError>
    ensures value { IfOk result
        (λ n. n ≡ min (faults.block_labels (operations text.now.tokens.now ops.entry)) CAP) }
    ensures most { IfOk result (λ n. n ≤ CAP) }
{
    let mut sum: u128 = 0;
    let mut left = ops;
    'each: while let Some((o, rest)) = next_op(text.tokens, left) {
        left = rest;
        sum = (sum + op_labels(text, o)?).min(CAP);
    }
    Ok(sum)
}

/// Notes items that take too many labels.
#[tactic(auto, using(crate::proofs::Notes::noted_more))]
pub fn note_wide(text: &Text, ops: Ops, first: &mut First) -> Result<(), AllocError>
    ensures { OnOk result
        (first.new.best
        ≡ noted first.old.best (faults.wide_items (operations text.now.tokens.now ops.entry))) }
{
    let mut left = ops;
    'each: while let Some((o, rest)) = next_op(text.tokens, left) {
        left = rest;
        let wide = op_labels(text, o)? > u128::from(LABEL_LIMIT);
        first.note_if(wide, o.at, ScopeKind::Limit);
    }
    Ok(())
}
