ghost use Rattle.std.specs.Prelude.{◌≡◌, IfOk};
ghost use Rattle.pass_copy.specs.ItemLabels as spec;

use crate::places::labels_in;
use arith_word::Label;
use mlir_ir::Func;
use std::alloc::AllocError;

/// How many labels the item of a label takes; none where the function has no such item.
///
/// # Errors
///
/// Where they are 2^32 or more.
pub fn item_labels(f: &Func, l: Label) -> Result<u32, AllocError>
    ensures { IfOk result (λ n. n ≡ spec.item_labels f.now l.0) }
{
    let Some(body) = &f.body else {
        return Ok(0);
    };
    match body.items.as_slice().get(l.item().saturating_sub(1)) {
        None => Ok(0),
        Some(item) => Ok(labels_in(item.ops.as_slice())?),
    }
}
