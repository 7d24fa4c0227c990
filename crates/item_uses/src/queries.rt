ghost use Rattle.std.specs.Prelude.{◌≡◌, ◌<◌, false, length, replicate, IfOk, OnOk};
ghost use Rattle.mlir_ir.specs.View.{view_items, view_ops};
ghost use Rattle.item_uses.specs.Uses as spec;
ghost use Rattle.item_uses.specs.Marks.{settled, with_marks};

use crate::marks::{is_any_marked, mark_all};
use crate::operands::item_operands;
use arith_word::List;
use mlir_ir::{Func, Item};
use std::alloc::{AllocError, Global};

/// Whether the item uses a value of an item that has its mark.
fn uses_marked(alloc: Global, marks: &[bool], item: &Item) -> Result<bool, AllocError>
    ensures { IfOk result (λ is. is ≡ spec.uses_marked marks.now (view_ops item.now.ops)) }
{
    let labels = item_operands(alloc, item)?;
    Ok(is_any_marked(marks, labels.as_slice()))
}

/// Adds the marks of the items that the item with that number affects.
fn push_affected(
    alloc: Global,
    marks: &mut Vec<bool>,
    items: &[Item],
    number: usize,
) -> Result<(), AllocError>
    ensures { OnOk result
        (marks.new.items ≡ spec.affected_from number marks.old.items (view_items items.now)) }
{
    for item in items {
        let is_given = marks.len() + 1 == number;
        let is_affected = is_given || uses_marked(alloc, marks.as_slice(), item)?;
        marks.push(is_affected)?;
    }
    Ok(())
}

/// Marks each item that the given one uses, of those that the list has a place for.
fn mark_used(alloc: Global, marks: &mut [bool], item: &Item) -> Result<(), AllocError>
    ensures { OnOk result
        (marks.new ≡ with_marks marks.old (spec.ops_uses (view_ops item.now.ops))) }
{
    let labels = item_operands(alloc, item)?;
    mark_all(marks, labels.as_slice());
    Ok(())
}

/// Settles the mark of an item at its place by those behind it. Where it is used, marks what it uses.
fn settle(
    alloc: Global,
    marks: &mut [bool],
    place: usize,
    item: &Item,
    is_given: bool,
) -> Result<(), AllocError>
    requires { place < length marks.old }
    ensures { OnOk result
        (marks.new ≡ settled marks.old place is_given (view_ops item.now.ops)) }
{
    let is_used = is_given || marks[place];
    marks[place] = is_used;
    if is_used {
        mark_used(alloc, &mut marks[..place], item)?;
    }
    Ok(())
}

/// Settles all marks for the item with that number, from the last item back.
fn settle_all(
    alloc: Global,
    marks: &mut [bool],
    items: &[Item],
    number: usize,
) -> Result<(), AllocError>
    requires { marks.old ≡ replicate (length items.now) false }
    ensures { OnOk result (marks.new ≡ spec.used_from number 1 (view_items items.now)) }
{
    let mut left = items.len();
    while left > 0 {
        left -= 1;
        let is_given = left + 1 == number;
        settle(alloc, marks, left, &items[left], is_given)?;
    }
    Ok(())
}

/// The items that the one with that number affects, an entry for each item: itself, and each later
/// one that uses a value of an affected one. The arguments, number 0, affect none.
pub fn affected(alloc: Global, f: &Func, item: u16) -> Result<List<bool>, AllocError>
    ensures { IfOk result (λ marks. marks ≡ spec.affected_items f.now item) }
{
    let mut marks = Vec::new(alloc);
    if let Some(body) = &f.body {
        push_affected(alloc, &mut marks, body.items.as_slice(), usize::from(item))?;
    }
    Ok(List::from_vec(marks))
}

/// The items that the one with that number uses, an entry for each item: itself, and each one of
/// which a used one uses a value. The arguments, number 0, use none.
pub fn uses(alloc: Global, f: &Func, item: u16) -> Result<List<bool>, AllocError>
    ensures { IfOk result (λ marks. marks ≡ spec.used_items f.now item) }
{
    let Some(body) = &f.body else {
        return Ok(List::from_vec(Vec::new(alloc)));
    };
    let items = body.items.as_slice();
    let mut marks = vec![in alloc; false; items.len()]?;
    settle_all(alloc, marks.as_mut_slice(), items, usize::from(item))?;
    Ok(List::from_vec(marks))
}
