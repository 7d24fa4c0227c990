ghost use Rattle.std.specs.Prelude.{◌≡◌, ◌<◌, ◌^◌, All, IfOk, MatchResult, length};
ghost use Rattle.mlir_ir.specs.Check.{IsWellFormed};
ghost use Rattle.mlir_scope.specs.StandingFunctions.{AreChecked};
ghost use Rattle.scev_input.specs.Inputs.{IsInput, IsRefused, line_fault};
ghost use Rattle.scev_input.specs.declared.fault.Refused.TheVariants as refusals;
ghost use Rattle.scev_script.specs.Within.{AreScripts};

use crate::fault::{FaultKind, Refused, fault_at};
use crate::module_text::read_module;
use arith_word::List;
use mlir_ir::Module;
use scev_script::{InputError, InputFault, Script, read_input};
use std::alloc::Global;

/// An input: its module, and the scripts of its sessions in order.
#[derive(Debug, Drop)]
pub struct Input {
    pub module: Module,
    pub sessions: List<Script>,
}

/// The refusal for the fault of a line of the scripts.
fn refused_line(fault: InputFault) -> Refused
    ensures { result ≡ refusals.Fault (line_fault fault) }
{
    if fault.limit {
        fault_at(FaultKind::Limit, fault.at)
    } else {
        fault_at(FaultKind::Script, fault.at)
    }
}

/// The input that a text is, or its first fault. A fault of the module comes before those of the
/// scripts.
#[tactic(auto, using(crate::proofs::ModuleEnds::end_of_input, crate::proofs::ModuleEnds::scripts_of_input, crate::proofs::ModuleEnds::end_of_fault, crate::proofs::Refusals::script_refused))]
fn read_text(alloc: Global, text: &str) -> Result<Input, Refused>
    requires { length text.now < 2 ^ 32 }
    ensures reading { MatchResult result (λ input. IsInput text.now input.module input.sessions)
        (λ e. IsRefused text.now e) }
    ensures checked { IfOk result (λ input. AreChecked input.module.funcs) }
    ensures kept { IfOk result (λ input. AreScripts input.sessions) }
{
    match read_input(alloc, text) {
        Ok(found) => {
            let module = read_module(alloc, text, found.module_end)?;
            Ok(Input {
                module,
                sessions: found.sessions,
            })
        }
        Err(InputError::NoMemory) => Err(Refused::NoMemory),
        Err(InputError::Fault(fault)) => {
            read_module(alloc, text, fault.module_end)?;
            Err(refused_line(fault))
        }
    }
}

/// The input that fewer than 2^32 bytes are: the module before the first line that begins with
/// `== `, and the scripts from there on. The functions of the module are well formed.
///
/// # Errors
///
/// `Fault` with the first fault, where the bytes are no input: of the bytes as UTF-8, of the
/// module's tokens, its grammar, its names, types and limits, and of the scripts, in this order.
/// `NoMemory` where memory is refused.
#[tactic(auto, using(crate::proofs::Refusals::all_formed))]
pub fn read(alloc: Global, bytes: &[u8]) -> Result<Input, Refused>
    requires { length bytes.now < 2 ^ 32 }
    ensures reading { MatchResult result (λ input. IsInput bytes.now input.module input.sessions)
        (λ e. IsRefused bytes.now e) }
    ensures checked { IfOk result (λ input. AreChecked input.module.funcs) }
    ensures formed { IfOk result (λ input. All IsWellFormed input.module.funcs) }
    ensures kept { IfOk result (λ input. AreScripts input.sessions) }
{
    match str::from_utf8(bytes) {
        Ok(text) => read_text(alloc, text),
        Err(e) => Err(fault_at(FaultKind::Utf8, e.valid_up_to() as u32)),
    }
}
