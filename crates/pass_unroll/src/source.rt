ghost use Rattle.std.specs.Prelude.{◌≡◌, ◌+◌, length, IfOk};
ghost use Rattle.mlir_ir.specs.Operations.{labels_of};
ghost use Rattle.mlir_ir.specs.declared.types.ForParts.{out-ForParts};
ghost use Rattle.mlir_ir.specs.View.{rows_of};

use arith_word::Label;
use mlir_ir::{ForParts, Op};
use pass_copy::{advance, labels_in};
use std::alloc::AllocError;

/// An `scf.for` that is copied, with the first labels of its parts.
#[derive(Clone, Copy)]
pub struct Source<'a> {
    pub op: &'a Op,
    pub parts: &'a ForParts,
    pub start: Label,
    pub variable_at: u32,
    pub args_at: u32,
    pub body_at: u32,
    /// How many labels the operations of the body take.
    pub body: u32,
    pub results_at: u32,
    pub end: u32,
    ghost variable: { variable_at ≡ start.0 + 1 },
    ghost args: { args_at ≡ start.0 + 2 },
    ghost inside: { body_at ≡ start.0 + 2 + length (out-ForParts parts.now).args },
    ghost labels: { body ≡ labels_of (rows_of (out-ForParts parts.now).body) },
    ghost results: { results_at ≡ start.0 + 2 + length (out-ForParts parts.now).args + body },
    ghost behind: { end ≡ results_at + length op.now.results },
}

/// The loop that begins with that label.
pub fn source_at<'a>(
    op: &'a Op,
    parts: &'a ForParts,
    start: Label,
) -> Result<Source<'a>, AllocError>
    ensures op { IfOk result (λ source. source.op.now ≡ op.now) }
    ensures parts { IfOk result (λ source. source.parts.now ≡ parts.now) }
    ensures start { IfOk result (λ source. source.start ≡ start) }
{
    let mut at = start.0;
    advance(&mut at, 1)?;
    let variable_at = at;
    advance(&mut at, 1)?;
    let args_at = at;
    advance(&mut at, parts.args.as_slice().len())?;
    let body_at = at;
    let body = labels_in(parts.body.ops.as_slice())?;
    advance(&mut at, body as usize)?;
    let results_at = at;
    advance(&mut at, op.results.as_slice().len())?;
    Ok(Source {
        op,
        parts,
        start,
        variable_at,
        args_at,
        body_at,
        body,
        results_at,
        end: at,
    })
}
