ghost use Rattle.std.specs.Prelude.{◌≡◌, ◌++◌, OnOk, string_bytes};
ghost use Rattle.scev_input.specs.FaultLines.{fault_line};

use crate::fault::Fault;
use std::alloc::AllocError;

/// Adds the line of a fault, `bad input: KIND at BYTE` with its LF. It fails only where memory runs
/// out.
pub fn push_fault(out: &mut String, fault: &Fault) -> Result<(), AllocError>
    ensures { OnOk result (string_bytes out.new ≡ string_bytes out.old ++ fault_line fault.now) }
{
    writeln!(out, "bad input: {} at {}", fault.kind, fault.at)?;
    Ok(())
}
