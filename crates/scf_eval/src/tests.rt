//! Runs worked by hand.

ghost use Rattle.std.specs.Prelude.{◌<◌};
ghost use Rattle.arith_word.specs.Labels.{item_count, index_count};

use super::*;
use arith_word::{BinOp, Label, List, Text, Width};
use mlir_ir::{Arg, Body, Flags, ForParts, Func, IrType, Item, Kind, Op, Pack, Region};
use sqlite_items::Items;
use std::alloc::{AllocError, Global};
use std::test::Fail;

fn arg(alloc: Global, name: &str, ty: IrType) -> Result<Arg, AllocError> {
    let name = Text::from_string(name.to_string(alloc)?);
    Ok(Arg { name, ty })
}

/// An operation with one result.
fn op(alloc: Global, name: &str, ty: IrType, kind: Kind) -> Result<Op, AllocError> {
    let name = Text::from_string(name.to_string(alloc)?);
    let packs = List::from_vec(vec![in alloc; Pack { name, count: 1 }]?);
    let results = List::from_vec(vec![in alloc; ty]?);
    Ok(Op {
        packs,
        results,
        kind,
    })
}

fn item(alloc: Global, op: Op) -> Result<Item, AllocError> {
    Ok(Item {
        ops: Items::from_vec(vec![in alloc; op]?),
    })
}

fn labels(alloc: Global, label: Label) -> Result<List<Label>, AllocError> {
    Ok(List::from_vec(vec![in alloc; label]?))
}

fn at(item: usize, index: usize) -> Label
    requires item { item < item_count }
    requires index { index < index_count }
{
    Label::new(0, item, index)
}

/// `%y = arith.addi %x, %i` in `scf.for %i = %z to %n step %o iter_args(%x = %a)`.
fn sum_loop(alloc: Global, ty: IrType) -> Result<Kind, AllocError> {
    let flags = Flags {
        nsw: false,
        nuw: false,
    };
    let sum = Kind::Bin(BinOp::Addi, flags, at(4, 2), at(4, 1));
    let body = Region {
        ops: Items::from_vec(vec![in alloc; op(alloc, "y", ty, sum)?]?),
        ends: labels(alloc, at(4, 3))?,
    };
    Ok(Kind::For(ForParts {
        lower: at(1, 0),
        upper: at(2, 0),
        step: at(3, 0),
        iv: arg(alloc, "i", ty)?,
        args: List::from_vec(vec![in alloc; arg(alloc, "x", ty)?]?),
        inits: labels(alloc, at(0, 0))?,
        body,
    }))
}

/// The sum of `%a` and of the numbers from 0 to 9.
fn sum_function(alloc: Global, ty: IrType) -> Result<Func, AllocError> {
    let mut items = Vec::new(alloc);
    items.push(item(alloc, op(alloc, "z", ty, Kind::Const(0))?)?)?;
    items.push(item(alloc, op(alloc, "n", ty, Kind::Const(10))?)?)?;
    items.push(item(alloc, op(alloc, "o", ty, Kind::Const(1))?)?)?;
    items.push(item(alloc, op(alloc, "r", ty, sum_loop(alloc, ty)?)?)?)?;
    Ok(Func {
        index: 0,
        name: Text::from_string("f".to_string(alloc)?),
        private: false,
        args: List::from_vec(vec![in alloc; arg(alloc, "a", ty)?]?),
        results: List::from_vec(vec![in alloc; ty]?),
        body: Some(Body {
            items: List::from_vec(items),
            ret: labels(alloc, at(4, 4))?,
        }),
    })
}

/// Whether a run returns the word.
fn returns(run: &Run, w: Width, v: u64) -> bool {
    match &run.outcome {
        Outcome::Ended(words) => {
            let words = words.as_slice();
            words.len() == 1 && words[0].w == w && words[0].v == v
        }
        _ => false,
    }
}

#[test]
fn sums(rt: HostRuntime) -> Result<(), Fail> {
    let alloc = rt.alloc();
    let w = Width::new(8).ok_or("width")?;
    let f = sum_function(alloc, IrType::Int(w))?;
    f.check()?;
    assert_eq!(rt; f.args.as_slice().len(), 1);
    // 45, and 45 + 250 modulo 256
    assert!(rt; returns(&run(alloc, &f, &[0], &[], 10)?, w, 45));
    assert!(rt; returns(&run(alloc, &f, &[250], &[], 10)?, w, 39));
    let cut = run(alloc, &f, &[0], &[], 9)?;
    assert!(rt; matches!(&cut.outcome, Outcome::Cut));
    assert!(rt; cut.trace.as_slice().is_empty());
    Ok(())
}
