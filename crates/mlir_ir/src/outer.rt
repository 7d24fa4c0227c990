ghost use Rattle.std.specs.Prelude.{◌≤◌, length};
ghost use Rattle.mlir_ir.specs.Outer.{KeepLabels};
ghost use Rattle.mlir_ir.specs.Limits.{arg_limit};

use crate::types::{Arg, Item};

/// A function's arguments, and the results of the operations of its first items, which keep their
/// limit of labels. So a label's function, item and index say where its value is.
#[derive(Clone, Copy)]
pub(crate) struct Outer<'a> {
    pub(crate) func: u8,
    pub(crate) args: &'a [Arg],
    pub(crate) items: &'a [Item],
    ghost few_args: { length args.now ≤ arg_limit },
    ghost few_labels: { KeepLabels items.now },
}
