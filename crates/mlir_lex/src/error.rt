ghost use Rattle.std.specs.Prelude.{◌≡◌};
ghost use Rattle.mlir_lex.specs.declared.error.LexError.TheVariants.{NoMemory};

use std::alloc::{AllocError, AllocFailed};

/// The first byte of a text where no token begins.
#[derive(Clone, Copy, Debug, PartialEq, Eq)]
pub struct LexFault {
    pub at: u32,
}

/// Why a text has no tokens: memory was refused, or a fault.
#[derive(Clone, Copy, Debug, PartialEq, Eq)]
pub enum LexError {
    NoMemory,
    Fault(LexFault),
}

impl From<AllocError> for LexError {
    ghost from_gives = { λ _ e. e ≡ NoMemory };

    fn from(_e: AllocError) -> LexError {
        LexError::NoMemory
    }
}

impl<T: Drop> From<AllocFailed<T>> for LexError {
    ghost from_gives = { λ _ e. e ≡ NoMemory };

    fn from(_e: AllocFailed<T>) -> LexError {
        LexError::NoMemory
    }
}
