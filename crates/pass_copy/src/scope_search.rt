ghost use Rattle.std.specs.Prelude.{◌≡◌, ◌==◌, ◌&&◌, ◌+◌, ◌<◌, ◌≤◌, ◌⊎◌, length, MatchOption, [], ◌∷◌};
ghost use Rattle.std.specs.List.{All};
ghost use Rattle.std.specs.Option.{option_or};
ghost use Rattle.arith_word.specs.Labels.{index_count};
ghost use Rattle.mlir_ir.specs.Check.{IsWellFormed};
ghost use Rattle.mlir_ir.specs.Limits.{item_limit, label_limit};
ghost use Rattle.mlir_ir.specs.Operations.{inner_labels, labels_of};
ghost use Rattle.mlir_ir.specs.Places.{HasFewLabels};
ghost use Rattle.mlir_ir.specs.Rules.{arg_types};
ghost use Rattle.mlir_ir.specs.Typed.{typed_from};
ghost use Rattle.mlir_ir.specs.View.{rows_of, view_for, view_items, view_kind, view_ops, view_while};
ghost use Rattle.pass_copy.specs.Replaced as spec;
ghost use Rattle.pass_copy.specs.ScopeSearch.{Finds, FindsInside, GivesInItems, IsTopType, IsTypeBehind};
ghost use Rattle.pass_copy.specs.Scopes.{HasScope};

use crate::places::is_loop;
use arith_word::Label;
use mlir_ir::{Arg, ForParts, Func, IrType, Item, Kind, Op, Region, WhileParts};

/// What a search for a loop finds in operations.
#[derive(Clone, Copy)]
enum Search {
    /// The loop can begin here alone: the type that the value has there, where it is in scope.
    Within(Option<IrType>),
    /// The loop begins behind these, so many labels further.
    Behind(u32),
}

/// The type of the value with label x among results, of which the first has the label `at`.
#[tactic(auto, using(crate::proofs::TypesFrom::typed_before, crate::proofs::TypesFrom::typed_nth, crate::proofs::CarriedTypes::typed_past))]
fn result_type(at: u32, results: &[IrType], x: Label) -> Option<IrType>
    ensures { result ≡ typed_from at results.now x.0 }
{
    if x.0 < at {
        return None;
    }
    let index = (x.0 - at) as usize;
    if index < results.len() {
        Some(results[index])
    } else {
        None
    }
}

/// The type of the value with label x among arguments, of which the first has the label `at`.
#[tactic(auto, using(crate::proofs::TypesFrom::typed_before, crate::proofs::TypesFrom::typed_arg, crate::proofs::TypesFrom::typed_past_args))]
fn arg_type(at: u32, args: &[Arg], x: Label) -> Option<IrType>
    ensures { result ≡ typed_from at (arg_types args.now) x.0 }
{
    if x.0 < at {
        return None;
    }
    let index = (x.0 - at) as usize;
    if index < args.len() {
        Some(args[index].ty)
    } else {
        None
    }
}

/// The type of the value with label x, where that is `at`, the label of a loop's variable.
fn variable_type(at: u32, iv: &Arg, x: Label) -> Option<IrType>
    ensures { result ≡ typed_from at (iv.now.ty ∷ []) x.0 }
{
    if x.0 == at { Some(iv.ty) } else { None }
}

/// The first type, where there is one, or the other.
fn either(first: Option<IrType>, other: Option<IrType>) -> Option<IrType>
    ensures { result ≡ option_or first other }
{
    match first {
        Some(ty) => Some(ty),
        None => other,
    }
}

/// Whether the operation is the loop that begins `left` labels behind the operation's first.
fn is_sought(kind: &Kind, left: u32) -> bool
    ensures { result ≡ (spec.is_loop (view_kind kind.now) && left == 0) }
{
    is_loop(kind) && left == 0
}

/// Searches operations for the loop that begins `left` labels behind their first, in a scope that
/// gives x the type `known`.
#[cycle(search)]
fn search_ops(ops: &[Op], left: u32, known: &Option<IrType>, target: Label, x: Label) -> Search
    requires { left ≤ target.0 }
    ensures { Finds target.0 x.0 known.now left (view_ops ops.now) result }
{
    let mut left = left;
    let mut known = *known;
    for op in ops {
        if is_sought(&op.kind, left) {
            return Search::Within(known);
        }
        left = match search_inside(&op.kind, left, &known, target, x) {
            Search::Within(found) => return Search::Within(found),
            Search::Behind(left) => left,
        };
        let results = op.results.as_slice();
        if (left as usize) < results.len() {
            return Search::Within(None);
        }
        known = either(known, result_type(target.0 - left, results, x));
        left -= results.len() as u32;
    }
    Search::Behind(left)
}

/// The same in the regions of an operation.
#[cycle(search)]
fn search_inside(kind: &Kind, left: u32, known: &Option<IrType>, target: Label, x: Label) -> Search
    requires { left ≤ target.0 }
    ensures { FindsInside target.0 x.0 known.now left (view_kind kind.now) result }
{
    match kind {
        Kind::If(_, first, None) => search_region(first, left, known, target, x),
        Kind::If(_, first, Some(other)) => match search_region(first, left, known, target, x) {
            Search::Within(found) => Search::Within(found),
            Search::Behind(left) => search_region(other, left, known, target, x),
        },
        Kind::For(parts) => search_for(parts, left, known, target, x),
        Kind::While(parts) => search_while(parts, left, known, target, x),
        _ => Search::Behind(left),
    }
}

#[cycle(search)]
#[tactic(auto, using(mlir_ir::proofs::PartViews::for_parts))]
fn search_for(
    parts: &ForParts,
    left: u32,
    known: &Option<IrType>,
    target: Label,
    x: Label,
) -> Search
    requires { left ≤ target.0 }
    ensures { FindsInside target.0 x.0 known.now left (view_for parts.now) result }
{
    let args = parts.args.as_slice();
    if (left as usize) < args.len() + 2 {
        return Search::Within(None);
    }
    let at = target.0 - left;
    let with_variable = either(*known, variable_type(at + 1, &parts.iv, x));
    let known = either(with_variable, arg_type(at + 2, args, x));
    search_region(&parts.body, left - args.len() as u32 - 2, &known, target, x)
}

#[cycle(search)]
#[tactic(auto, using(mlir_ir::proofs::PartViews::while_parts))]
fn search_while(
    parts: &WhileParts,
    left: u32,
    known: &Option<IrType>,
    target: Label,
    x: Label,
) -> Search
    requires { left ≤ target.0 }
    ensures { FindsInside target.0 x.0 known.now left (view_while parts.now) result }
{
    let args = parts.args.as_slice();
    if (left as usize) < args.len() + 1 {
        return Search::Within(None);
    }
    let before = either(*known, arg_type(target.0 - left + 1, args, x));
    let in_before = left - args.len() as u32 - 1;
    let left = match search_region(&parts.before, in_before, &before, target, x) {
        Search::Within(found) => return Search::Within(found),
        Search::Behind(left) => left,
    };
    let after_args = parts.after_args.as_slice();
    if (left as usize) < after_args.len() {
        return Search::Within(None);
    }
    let after = either(*known, arg_type(target.0 - left, after_args, x));
    let in_after = left - after_args.len() as u32;
    search_region(&parts.after, in_after, &after, target, x)
}

#[cycle(search)]
#[tactic(auto, using(mlir_ir::proofs::PartViews::region_rows))]
fn search_region(
    region: &Region,
    left: u32,
    known: &Option<IrType>,
    target: Label,
    x: Label,
) -> Search
    requires { left ≤ target.0 }
    ensures { Finds target.0 x.0 known.now left (rows_of region.now) result }
{
    search_ops(region.ops.as_slice(), left, known, target, x)
}

/// What is left of that many labels behind those inside an operation; `None` where there are fewer.
fn skip_inside(kind: &Kind, left: u32) -> Option<u32>
    ensures { MatchOption result (left < inner_labels (view_kind kind.now))
        (λ rest. rest + inner_labels (view_kind kind.now) ≡ left) }
{
    match search_inside(kind, left, &None, Label(left), Label(0)) {
        Search::Within(_) => None,
        Search::Behind(rest) => Some(rest),
    }
}

/// The type of the result that comes `left` labels behind the first of operations; `None` where
/// they have no such result.
fn top_type(ops: &[Op], left: u32) -> Option<IrType>
    ensures { IsTopType left (view_ops ops.now) result }
{
    let mut left = left;
    for op in ops {
        left = match skip_inside(&op.kind, left) {
            Some(left) => left,
            None => return None,
        };
        let results = op.results.as_slice();
        if (left as usize) < results.len() {
            return Some(results[left as usize]);
        }
        left -= results.len() as u32;
    }
    None
}

/// How many labels the label comes behind the first of its item, `at`; `None` where that is another
/// item's.
fn left_in_item(at: u32, label: Label) -> Option<u32>
    ensures { MatchOption result ((label.0 < at) ⊎ (at + index_count ≤ label.0))
        (λ left. (at + left ≡ label.0) × (left < index_count)) }
{
    if label.0 < at || label.0 - at >= Label::INDEX_COUNT {
        return None;
    }
    Some(label.0 - at)
}

/// The type of x behind the operations of an item that begins with the label `at`, where it has the
/// type `known` in front of them.
#[tactic(auto, using(crate::proofs::ItemScopes::behind_other, crate::proofs::ItemScopes::behind_own))]
fn type_behind(at: u32, ops: &[Op], known: Option<IrType>, x: Label) -> Option<IrType>
    requires { labels_of (view_ops ops.now) ≤ label_limit }
    ensures { IsTypeBehind x.0 known at (view_ops ops.now) result }
{
    match left_in_item(at, x) {
        Some(left) => either(known, top_type(ops, left)),
        None => known,
    }
}

/// The type of the value with label x where the loop with the label `target` begins in items.
fn scope_in_items(
    func: u8,
    items: &[Item],
    known: Option<IrType>,
    target: Label,
    x: Label,
) -> Option<IrType>
    requires few { length items.now ≤ item_limit }
    requires fit { All HasFewLabels items.now }
    ensures { GivesInItems target.0 x.0 known func 1 (view_items items.now) result }
{
    let mut known = known;
    for (index, item) in items.iter().enumerate() {
        let at = Label::new(func, index + 1, 0).0;
        let ops = item.ops.as_slice();
        if let Some(left) = left_in_item(at, target) {
            return match search_ops(ops, left, &known, target, x) {
                Search::Within(found) => found,
                Search::Behind(_) => None,
            };
        }
        known = type_behind(at, ops, known, x);
    }
    None
}

/// The type of the value with label x where the loop with the label `target` begins; `None` where
/// no such value is in scope there. Where no loop has that label the result says nothing.
pub fn scope_of(f: &Func, target: Label, x: Label) -> Option<IrType>
    requires { IsWellFormed f.now }
    ensures { HasScope f.now target.0 (λ T. T x.0 ≡ result) }
{
    match &f.body {
        None => None,
        Some(body) => {
            let known = arg_type(Label::new(f.index, 0, 0).0, f.args.as_slice(), x);
            scope_in_items(f.index, body.items.as_slice(), known, target, x)
        }
    }
}
