ghost use Rattle.std.specs.Prelude.{◌≡◌, ◌*◌, ◌++◌, replicate, OnOk, string_bytes};
ghost use Rattle.mlir_ir.specs.Canonical.{line};
ghost use Rattle.mlir_print.specs.Lines.{depth_of};

use std::alloc::AllocError;

/// How deep a line stands. It is a chain and no number, so that it has no bound.
#[derive(Drop)]
pub(crate) enum Depth<'a> {
    /// The lines that open and close a function.
    Outside,
    /// One step of two blanks deeper.
    Inside(&'a Depth<'a>),
}

/// Adds the blanks in front of a line.
#[tactic(auto, using(crate::proofs::Texts::two_more))]
pub(crate) fn push_blanks(out: &mut String, depth: &Depth<'_>) -> Result<(), AllocError>
    ensures { OnOk result
        (string_bytes out.new ≡ string_bytes out.old ++ replicate (2 * depth_of depth.now) 32) }
{
    match depth {
        Depth::Outside => Ok(()),
        Depth::Inside(outer) => {
            push_blanks(out, outer)?;
            write!(out, "  ")
        }
    }
}

/// Adds a line.
pub(crate) fn push_line(out: &mut String, depth: &Depth<'_>, text: &str) -> Result<(), AllocError>
    ensures { OnOk result
        (string_bytes out.new ≡ string_bytes out.old ++ line (depth_of depth.now) text.now) }
{
    push_blanks(out, depth)?;
    writeln!(out, "{text}")
}
