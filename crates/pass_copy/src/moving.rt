ghost use Rattle.std.specs.Prelude.{◌≡◌, ◌++◌, ◌∷◌, [], IfOk, OnOk};
ghost use Rattle.pass_copy.specs.Built as spec;
ghost use Rattle.pass_copy.specs.Renaming.{links};

use crate::places::advance;
use crate::renaming::{Renaming, Span};
use arith_word::{Label, List};
use std::alloc::{AllocError, Global};

/// The first label behind the item of a label is 2^32 where that is the last item of labels.
const ITEM_LABELS: u32 = Label::INDEX_COUNT;

/// The labels of an item from one on move to another.
pub fn moved(start: u32, to: u32) -> Span
    ensures { result ≡ spec.moved start to }
{
    Span {
        from: Label(start),
        count: ITEM_LABELS - start % ITEM_LABELS,
        to: Label(to),
    }
}

/// The uses in a child: labels from one on move to another.
pub fn moved_map(alloc: Global, start: u32, to: u32) -> Result<Renaming, AllocError>
    ensures { IfOk result (λ map. map.spans.items ≡ spec.moved start to ∷ []) }
{
    let mut spans = Vec::with_capacity(alloc, 1)?;
    spans.push(moved(start, to))?;
    Ok(Renaming { spans })
}

/// So many labels from one on.
pub fn labels_from(alloc: Global, start: u32, count: usize) -> Result<List<Label>, AllocError>
    ensures { IfOk result (λ made. made ≡ spec.labels_from start count) }
{
    let mut made = Vec::with_capacity(alloc, count)?;
    let mut at = start;
    for _label in 0..count {
        made.push(Label(at))?;
        advance(&mut at, 1)?;
    }
    Ok(List::from_vec(made))
}

/// Labels from one on get these labels.
pub fn push_links(spans: &mut Vec<Span>, start: u32, labels: &[Label]) -> Result<(), AllocError>
    ensures { OnOk result (spans.new.items ≡ spans.old.items ++ links start labels.now) }
{
    let mut at = start;
    for l in labels {
        spans.push(Span {
            from: Label(at),
            count: 1,
            to: *l,
        })?;
        advance(&mut at, 1)?;
    }
    Ok(())
}
