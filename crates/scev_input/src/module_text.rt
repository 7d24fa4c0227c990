ghost use Rattle.std.specs.Prelude.{◌≡◌, ◌<◌, ◌^◌, IfOk, MatchResult, length};
ghost use Rattle.mlir_ir.specs.Reads.{Reads};
ghost use Rattle.mlir_scope.specs.StandingFunctions.{AreChecked};
ghost use Rattle.scev_input.specs.Inputs.{IsRefused, kind_of_scope, module_bytes};
ghost use Rattle.scev_script.specs.Scripts.{module_end_in};

use crate::fault::{FaultKind, Refused, fault_at};
use mlir_ir::{Module, ScopeKind};
use mlir_parse::parse;
use mlir_scope::{ScopeError, resolve};
use std::alloc::Global;

/// The kind of a fault that a syntax has by its names, types and limits.
fn kind_by_scope(kind: ScopeKind) -> FaultKind
    ensures { result ≡ kind_of_scope kind }
{
    match kind {
        ScopeKind::Limit => FaultKind::Limit,
        ScopeKind::Twice => FaultKind::Twice,
        ScopeKind::Unknown => FaultKind::Unknown,
        ScopeKind::Arity => FaultKind::Arity,
        ScopeKind::WrongType => FaultKind::WrongType,
    }
}

/// The module of a text whose module ends at the byte `end`. Its functions are well formed.
///
/// # Errors
///
/// `Fault` with the first fault of the text, where its module has one. `NoMemory` where memory is
/// refused.
#[tactic(auto, using(crate::proofs::Refusals::refused_as))]
pub(crate) fn read_module(alloc: Global, text: &str, end: u32) -> Result<Module, Refused>
    requires short { length text.now < 2 ^ 32 }
    requires end { end ≡ module_end_in text.now }
    ensures reading { MatchResult result (λ m. Reads (module_bytes text.now) m)
        (λ e. IsRefused text.now e) }
    ensures checked { IfOk result (λ m. AreChecked m.funcs) }
{
    let syntax = parse(alloc, text.split_at(end as usize).0)?;
    match resolve(alloc, &syntax) {
        Ok(module) => Ok(module),
        Err(ScopeError::NoMemory) => Err(Refused::NoMemory),
        Err(ScopeError::Fault(fault)) => {
            Err(fault_at(kind_by_scope(fault.kind), syntax.place(fault.token)))
        }
    }
}
