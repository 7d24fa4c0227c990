ghost use Rattle.std.specs.Prelude.{◌≡◌};
ghost use Rattle.scev_script.specs.declared.error.InputError.TheVariants.{NoMemory};

use std::alloc::{AllocError, AllocFailed};

/// The first fault of the scripts of an input: the place where its line begins, and whether the line only
/// passes a limit. The module of the input ends at `module_end`.
#[derive(Clone, Copy, Debug, PartialEq, Eq)]
pub struct InputFault {
    pub at: u32,
    pub limit: bool,
    pub module_end: u32,
}

/// Why a text isn't read as an input: memory was refused, or a fault.
#[derive(Clone, Copy, Debug, PartialEq, Eq)]
pub enum InputError {
    NoMemory,
    Fault(InputFault),
}

impl From<AllocError> for InputError {
    ghost from_gives = { λ _ e. e ≡ NoMemory };

    fn from(_e: AllocError) -> InputError {
        InputError::NoMemory
    }
}

impl<T: Drop> From<AllocFailed<T>> for InputError {
    ghost from_gives = { λ _ e. e ≡ NoMemory };

    fn from(_e: AllocFailed<T>) -> InputError {
        InputError::NoMemory
    }
}
