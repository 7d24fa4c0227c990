ghost use Rattle.std.specs.Prelude.{◌≡◌, ◌-◌, ◌≤◌, length};
ghost use Rattle.mlir_ir.specs.Labels.{kind_labels, op_labels, ops_labels, region_labels, for_labels, while_labels};
ghost use Rattle.mlir_ir.specs.Searched.{searched};
ghost use Rattle.mlir_ir.specs.Values.{arg_values, for_values, func_values, items_values, kind_values, op_values, ops_values, region_values, result_values, type_at, while_values};

use crate::lookup::{arg_type, result_type};
use crate::types::{Arg, ForParts, Func, IrType, Item, Kind, Op, Region, WhileParts};
use arith_word::Label;

/// What a search for a label among values finds.
#[derive(Clone, Copy)]
pub(crate) enum Search {
    /// The label is one of theirs: its type, where it is that of a value.
    Within(Option<IrType>),
    /// The label comes behind theirs, so many labels further.
    Behind(u32),
}

/// Searches arguments for the label that comes `left` labels behind their first.
#[tactic(auto)]
fn search_args(args: &[Arg], left: u32, label: u32) -> Search
    requires { left ≤ label }
    ensures { result ≡ searched (arg_values (label - left) args.now)
        (length args.now) left label }
{
    if (left as usize) < args.len() {
        Search::Within(arg_type(label - left, args, label))
    } else {
        Search::Behind(left - args.len() as u32)
    }
}

/// Searches the results of an operation for the label that comes `left` labels behind their first.
#[tactic(auto)]
fn search_results(op: &Op, left: u32, label: u32) -> Search
    requires { left ≤ label }
    ensures { result ≡ searched (result_values (label - left) op.now.packs op.now.results)
        (length op.now.results) left label }
{
    let results = op.results.as_slice();
    if (left as usize) < results.len() {
        Search::Within(result_type(label - left, op.packs.as_slice(), results, label))
    } else {
        Search::Behind(left - results.len() as u32)
    }
}

/// Searches what is inside an operation for the label that comes `left` labels behind its first.
#[cycle(search)]
#[tactic(auto, using(crate::proofs::TypeSearches::behind_less))]
fn search_kind(kind: &Kind, left: u32, label: u32) -> Search
    requires { left ≤ label }
    ensures { result ≡ searched (kind_values (label - left) kind.now)
        (kind_labels kind.now) left label }
{
    match kind {
        Kind::If(_, first, None) => search_region(first, left, label),
        Kind::If(_, first, Some(other)) => match search_region(first, left, label) {
            Search::Within(found) => Search::Within(found),
            Search::Behind(left) => search_region(other, left, label),
        },
        Kind::For(parts) => search_for(parts, left, label),
        Kind::While(parts) => search_while(parts, left, label),
        _ => Search::Behind(left),
    }
}

#[cycle(search)]
#[tactic(auto, using(crate::proofs::TypeSearches::for_counter, crate::proofs::TypeSearches::for_iv, crate::proofs::TypeSearches::for_searched, crate::proofs::TypeSearches::behind_less))]
fn search_for(parts: &ForParts, left: u32, label: u32) -> Search
    requires { left ≤ label }
    ensures { result ≡ searched (for_values (label - left) parts.now)
        (for_labels parts.now) left label }
{
    if left == 0 {
        return Search::Within(None);
    }
    if left == 1 {
        return Search::Within(Some(parts.iv.ty));
    }
    match search_args(parts.args.as_slice(), left - 2, label) {
        Search::Within(found) => Search::Within(found),
        Search::Behind(left) => search_region(&parts.body, left, label),
    }
}

#[cycle(search)]
#[tactic(auto, using(crate::proofs::TypeSearches::while_counter, crate::proofs::TypeSearches::while_searched, crate::proofs::TypeSearches::behind_less))]
fn search_while(parts: &WhileParts, left: u32, label: u32) -> Search
    requires { left ≤ label }
    ensures { result ≡ searched (while_values (label - left) parts.now)
        (while_labels parts.now) left label }
{
    if left == 0 {
        return Search::Within(None);
    }
    let left = match search_args(parts.args.as_slice(), left - 1, label) {
        Search::Within(found) => return Search::Within(found),
        Search::Behind(left) => left,
    };
    let left = match search_region(&parts.before, left, label) {
        Search::Within(found) => return Search::Within(found),
        Search::Behind(left) => left,
    };
    match search_args(parts.after_args.as_slice(), left, label) {
        Search::Within(found) => Search::Within(found),
        Search::Behind(left) => search_region(&parts.after, left, label),
    }
}

#[cycle(search)]
#[tactic(auto, using(crate::proofs::TypeSearches::region_searched))]
fn search_region(region: &Region, left: u32, label: u32) -> Search
    requires { left ≤ label }
    ensures { result ≡ searched (region_values (label - left) region.now)
        (region_labels region.now) left label }
{
    search_ops(region.ops.as_slice(), left, label)
}

/// Searches an operation with its results for the label that comes `left` labels behind its first.
#[cycle(search)]
#[tactic(auto, using(crate::proofs::TypeSearches::op_searched, crate::proofs::TypeSearches::behind_less))]
fn search_op(op: &Op, left: u32, label: u32) -> Search
    requires { left ≤ label }
    ensures { result ≡ searched (op_values (label - left) op.now) (op_labels op.now) left label }
{
    match search_kind(&op.kind, left, label) {
        Search::Within(found) => Search::Within(found),
        Search::Behind(left) => search_results(op, left, label),
    }
}

/// Searches operations for the label that comes `left` labels behind their first.
#[cycle(search)]
#[tactic(auto, using(crate::proofs::TypeSearches::ops_here, crate::proofs::TypeSearches::ops_behind))]
fn search_ops(ops: &[Op], left: u32, label: u32) -> Search
    requires { left ≤ label }
    ensures { result ≡ searched (ops_values (label - left) ops.now)
        (ops_labels ops.now) left label }
{
    let mut left = left;
    for op in ops {
        left = match search_op(op, left, label) {
            Search::Within(found) => return Search::Within(found),
            Search::Behind(left) => left,
        };
    }
    Search::Behind(left)
}

/// The type of the value of an item whose label comes `left` labels behind its first.
#[tactic(auto, using(crate::proofs::TypeSearches::searched_within, crate::proofs::TypeSearches::ops_passed))]
fn item_type(item: &Item, left: u32, label: u32) -> Option<IrType>
    requires { left ≤ label }
    ensures { result ≡ type_at (ops_values (label - left) item.now.ops) label }
{
    match search_ops(item.ops.as_slice(), left, label) {
        Search::Within(found) => found,
        Search::Behind(_) => None,
    }
}

/// The type of the value with that label in items, which are numbered from 1.
#[tactic(auto, using(crate::proofs::TypeSearches::item_found, crate::proofs::TypeSearches::item_passed))]
fn items_type(func: u8, items: &[Item], label: u32) -> Option<IrType>
    ensures { result ≡ type_at (items_values func 1 items.now) label }
{
    let begin = Label::new(func, 0, 0).0;
    if label < begin {
        return None;
    }
    let mut left = label - begin;
    for item in items {
        if left < Label::INDEX_COUNT {
            return None;
        }
        left -= Label::INDEX_COUNT;
        match item_type(item, left, label) {
            Some(ty) => return Some(ty),
            None => {}
        }
    }
    None
}

/// The type of the function's value with that label; `None` where it has no such value.
#[tactic(auto, using(crate::proofs::TypeAt::type_at_append))]
pub fn type_of(func: &Func, v: Label) -> Option<IrType>
    ensures { result ≡ type_at (func_values func.now) v.0 }
{
    let begin = Label::new(func.index, 0, 0).0;
    match arg_type(begin, func.args.as_slice(), v.0) {
        Some(ty) => Some(ty),
        None => match &func.body {
            None => None,
            Some(body) => items_type(func.index, body.items.as_slice(), v.0),
        },
    }
}
