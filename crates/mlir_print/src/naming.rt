ghost use Rattle.std.specs.Prelude.{◌≡◌, [], ◌∷◌, map, None, MatchOption, IfOk, OnOk};
ghost use Rattle.mlir_ir.specs.Canonical.{naming_of};
ghost use Rattle.mlir_ir.specs.Check.{IsWellFormed};
ghost use Rattle.mlir_ir.specs.Values.{value_at};
ghost use Rattle.mlir_print.specs.Slots.{slot_value, rows_values, items_of, AreItems, AreWithin};

use crate::filling::{add_args, add_ops};
use arith_word::{Label, List};
use mlir_ir::{Arg, Func, IrType, Item, Pack};
use std::alloc::{AllocError, Global};
use std::marker::Model;

/// What a label stands for.
#[derive(Drop)]
pub enum Slot<'a> {
    /// No value, as the counter of a loop.
    Empty,
    Argument(&'a Arg),
    /// The result with that place, from 0, of those with one name.
    Part(&'a Pack, usize, &'a IrType),
}

/// The values of a function by their labels, and the functions of its module.
#[derive(Drop)]
pub struct Names<'a> {
    func: u8,
    rows: Vec<List<Slot<'a>>>,
    funcs: &'a [Func],
}

impl<'a> Model for Names<'a> {
    ghost use Rattle.std.specs.Prelude.{map};
    ghost use Rattle.mlir_ir.specs.Canonical.{Naming};
    ghost use Rattle.mlir_print.specs.Slots.{rows_values, AreWithin};

    ghost Value = { Naming };

    ghost view = { λ n. record
        { values = rows_values n.func 0 n.rows.items; funcs = map (λ f. f.name) n.funcs.now } };

    ghost invariant = { λ n. AreWithin n.rows.items };
}

/// Adds the slots of an item.
fn add_item<'a>(
    alloc: Global,
    rows: &mut Vec<List<Slot<'a>>>,
    item: &'a Item,
) -> Result<(), AllocError>
    ensures { OnOk result (AreItems rows.old.items rows.new.items (item.now ∷ [])) }
{
    let mut row = Vec::new(alloc);
    add_ops(&mut row, item.ops.as_slice())?;
    rows.push(List::from_vec(row))?;
    Ok(())
}

/// Adds the slots of items.
fn add_items<'a>(
    alloc: Global,
    rows: &mut Vec<List<Slot<'a>>>,
    items: &'a [Item],
) -> Result<(), AllocError>
    ensures { OnOk result (AreItems rows.old.items rows.new.items items.now) }
{
    for item in items {
        add_item(alloc, rows, item)?;
    }
    Ok(())
}

/// Adds the slots of a function's items, where it has a body.
fn add_body<'a>(
    alloc: Global,
    rows: &mut Vec<List<Slot<'a>>>,
    func: &'a Func,
) -> Result<(), AllocError>
    ensures { OnOk result (AreItems rows.old.items rows.new.items (items_of func.now.body)) }
{
    if let Some(body) = &func.body {
        add_items(alloc, rows, body.items.as_slice())?;
    }
    Ok(())
}

impl<'a> Names<'a> {
    /// The names of the values of a function among those of its module.
    pub fn new(alloc: Global, funcs: &'a [Func], func: &'a Func) -> Result<Names<'a>, AllocError>
        requires { IsWellFormed func.now }
        ensures { IfOk result (λ names. names ≡ naming_of (map (λ f. f.name) funcs.now) func.now) }
    {
        let mut args = Vec::new(alloc);
        add_args(&mut args, func.args.as_slice())?;
        let mut rows = Vec::new(alloc);
        rows.push(List::from_vec(args))?;
        add_body(alloc, &mut rows, func)?;
        Ok(Names {
            func: func.index,
            rows,
            funcs,
        })
    }

    /// The functions of the module.
    pub(crate) fn funcs(&self) -> &[Func]
        ensures { map (λ f. f.name) result.now ≡ self.now.funcs }
    {
        self.funcs
    }

    /// The number of the function and what its labels stand for in their order: a row for its
    /// arguments, and behind it one for each item.
    pub fn rows(&self) -> (u8, &[List<Slot<'a>>])
        ensures values { rows_values result.0 0 result.1.now ≡ self.now.values }
        ensures within { AreWithin result.1.now }
    {
        (self.func, self.rows.as_slice())
    }

    /// What the label stands for; `None` where it is no label of the function.
    pub fn slot(&self, label: Label) -> Option<&Slot<'a>>
        ensures { MatchOption result (value_at self.now.values label.0 ≡ None)
            (λ slot. value_at self.now.values label.0 ≡ slot_value label.0 slot.now) }
    {
        if label.func() != self.func {
            return None;
        }
        let number = label.item();
        if number >= self.rows.len() {
            return None;
        }
        let row = self.rows[number].as_slice();
        let index = label.index();
        if index < row.len() {
            Some(&row[index])
        } else {
            None
        }
    }
}
