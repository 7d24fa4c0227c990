ghost use Rattle.std.specs.Prelude.{◌≡◌, [], IfOk, false, if◌then◌else◌, slice_index_or};
ghost use Rattle.item_uses.specs.Uses.{AreClosed};
ghost use Rattle.mlir_ir.specs.Check.{IsWellFormed};
ghost use Rattle.mlir_ir.specs.View.{view_items};
ghost use Rattle.fresh_scev.specs.Answers.{facts_shown};
ghost use Rattle.fresh_scev.specs.Bits.{HaveBits};
ghost use Rattle.fresh_scev.specs.Entries.{HaveCounts, HaveEntries};
ghost use Rattle.fresh_scev.specs.Facts.{IsFacts, items_in};
ghost use Rattle.fresh_scev.specs.Table.{AreKnown};
ghost use Rattle.fresh_scev.specs.UnderWay.{HasFirstItems};
ghost use Rattle.fresh_scev.specs.Wanted.{with_items};
ghost use Rattle.fresh_scev.specs.Widths.{HaveWidths};

use crate::bits::func_bits;
use crate::facts::Facts;
use crate::owns::define_own;
use crate::parts::types_of;
use crate::table::Table;
use crate::walk::walk_ops;
use mlir_ir::{Func, Item, Op};
use std::alloc::{AllocError, Global};

/// The items of a function; a declaration has none.
fn items_of(f: &Func) -> &[Item]
    ensures { view_items result.now ≡ items_in f.entry.now.body }
{
    match &f.body {
        Some(body) => body.items.as_slice(),
        None => &[],
    }
}

/// A table of the facts of a function's arguments.
fn arguments_table(alloc: Global, f: &Func) -> Result<Table, AllocError>
    requires { IsWellFormed f.now }
    ensures { IfOk result (λ t. HasFirstItems f.now t []) }
{
    let mut t = Table::new(alloc, f.index);
    let types = types_of(alloc, f.args.as_slice())?;
    define_own(&mut t, &types)?;
    t.seal()?;
    Ok(t)
}

/// The facts of a function: the expressions of all its values, each within the limits and with the
/// width of the value's type, and the trip counts of all its loops. The type of each value has at
/// least one bit (`bits`), which the laws of facts over runs ask for.
pub fn analyse(alloc: Global, f: &Func) -> Result<Facts, AllocError>
    requires { IsWellFormed f.now }
    ensures facts { IfOk result (λ facts. IsFacts f.now (facts_shown facts)) }
    ensures widths { IfOk result (λ facts. HaveWidths f.now (facts_shown facts)) }
    ensures known { IfOk result (λ facts. AreKnown (facts_shown facts)) }
    ensures values { IfOk result (λ facts. HaveEntries f.now facts) }
    ensures loops { IfOk result (λ facts. HaveCounts f.now facts) }
    ensures bits { HaveBits f.now }
{
    func_bits(f);
    let mut t = arguments_table(alloc, f)?;
    for item in items_of(f) {
        walk_ops(&mut t, item.ops.as_slice())?;
        t.seal()?;
    }
    Ok(Facts {
        func: t.func,
        items: t.items,
    })
}

/// The operations of the item with that number where it has its mark, else none.
fn marked_ops<'a>(marks: &[bool], number: usize, item: &'a Item) -> &'a [Op]
    ensures { result.now ≡ (if slice_index_or marks.now number false then item.now.ops else []) }
{
    match marks.get(number) {
        Some(true) => item.ops.as_slice(),
        _ => &[],
    }
}

/// The facts of the items that have their marks, which must have all items that they use among them:
/// the facts of the function that has these items alone (`some_items_have_all_facts`: they are those
/// of the whole function).
pub fn analyse_items(alloc: Global, f: &Func, marks: &[bool]) -> Result<Facts, AllocError>
    requires well_formed { IsWellFormed f.now }
    requires closed { AreClosed marks.now f.now }
    ensures facts { IfOk result
        (λ facts. IsFacts (with_items marks.now f.now) (facts_shown facts)) }
    ensures widths { IfOk result
        (λ facts. HaveWidths (with_items marks.now f.now) (facts_shown facts)) }
    ensures known { IfOk result (λ facts. AreKnown (facts_shown facts)) }
    ensures values { IfOk result (λ facts. HaveEntries (with_items marks.now f.now) facts) }
    ensures loops { IfOk result (λ facts. HaveCounts (with_items marks.now f.now) facts) }
{
    let mut t = arguments_table(alloc, f)?;
    for (k, item) in items_of(f).iter().enumerate() {
        walk_ops(&mut t, marked_ops(marks, k, item))?;
        t.seal()?;
    }
    Ok(Facts {
        func: t.func,
        items: t.items,
    })
}
