ghost use Rattle.std.specs.Prelude.{◌≡◌, IfOk, MatchResult};
ghost use Rattle.mlir_ir.specs.Reads.{IsModuleOf};
ghost use Rattle.mlir_ir.specs.Syntaxes.{StandsFor};
ghost use Rattle.mlir_scope.specs.StandingFunctions.{AreChecked};
ghost use Rattle.mlir_scope.specs.Unresolved.{IsUnresolved};
ghost use Rattle.mlir_scope.specs.declared.resolving.ScopeError.TheVariants.{NoMemory};

use crate::built_funcs::functions;
use crate::first::ScopeFault;
use crate::text_faults::first_fault;
use arith_word::List;
use mlir_ir::{Module, Syntax};
use std::alloc::{AllocError, AllocFailed, Global};

/// Why a syntax stands for no module: memory was refused, or a rule is broken.
#[derive(Clone, Copy, Debug, PartialEq, Eq)]
pub enum ScopeError {
    NoMemory,
    Fault(ScopeFault),
}

impl From<AllocError> for ScopeError {
    ghost from_gives = { λ _ e. e ≡ NoMemory };

    fn from(_e: AllocError) -> ScopeError {
        ScopeError::NoMemory
    }
}

impl<T: Drop> From<AllocFailed<T>> for ScopeError {
    ghost from_gives = { λ _ e. e ≡ NoMemory };

    fn from(_e: AllocFailed<T>) -> ScopeError {
        ScopeError::NoMemory
    }
}

/// The module that a syntax stands for; its functions are well formed.
///
/// # Errors
///
/// `Fault` with the break that counts, where the syntax breaks a rule. `NoMemory` where memory is
/// refused. `NoMemory` also stands for a number or a name that has no room in the program's types;
/// that this never happens for a syntax that breaks no rule is not proved.
pub fn resolve(alloc: Global, syntax: &Syntax) -> Result<Module, ScopeError>
    requires stands { StandsFor syntax.now syntax.now.tokens }
    ensures resolved { MatchResult result (λ m. IsModuleOf syntax.now m)
        (λ e. IsUnresolved syntax.now e) }
    ensures checked { IfOk result (λ m. AreChecked m.funcs) }
{
    match first_fault(alloc, syntax)? {
        Some(fault) => Err(ScopeError::Fault(fault)),
        None => {
            let funcs = functions(alloc, syntax)?;
            Ok(Module {
                funcs: List::from_vec(funcs),
            })
        }
    }
}
