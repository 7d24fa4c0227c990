ghost use Rattle.std.specs.Prelude.{◌≡◌};
ghost use Rattle.mlir_parse.specs.declared.fault.Fault.TheVariants.{NoMemory};

use std::alloc::{AllocError, AllocFailed};

/// The syntax error of tokens, by the index of the token, or an allocation failure.
#[derive(Clone, Copy, Debug)]
pub enum Fault {
    NoMemory,
    Syntax(usize),
    TooDeep(usize),
}

impl From<AllocError> for Fault {
    ghost from_gives = { λ _ e. e ≡ NoMemory };

    fn from(_e: AllocError) -> Fault {
        Fault::NoMemory
    }
}

impl<T: Drop> From<AllocFailed<T>> for Fault {
    ghost from_gives = { λ _ e. e ≡ NoMemory };

    fn from(_e: AllocFailed<T>) -> Fault {
        Fault::NoMemory
    }
}
