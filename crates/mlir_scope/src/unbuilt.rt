ghost use Rattle.std.specs.Prelude.{◌≡◌};
ghost use Rattle.mlir_scope.specs.declared.unbuilt.Unbuilt.TheVariants.{NoMemory};

use std::alloc::{AllocError, AllocFailed};

/// Why a part of a syntax was not built: memory was refused, or a number or a name of the text has no
/// room in the program's types.
#[derive(Clone, Copy, Debug, PartialEq, Eq)]
pub enum Unbuilt {
    NoMemory,
    NoRoom,
}

impl From<AllocError> for Unbuilt {
    ghost from_gives = { λ _ e. e ≡ NoMemory };

    fn from(_e: AllocError) -> Unbuilt {
        Unbuilt::NoMemory
    }
}

impl<T: Drop> From<AllocFailed<T>> for Unbuilt {
    ghost from_gives = { λ _ e. e ≡ NoMemory };

    fn from(_e: AllocFailed<T>) -> Unbuilt {
        Unbuilt::NoMemory
    }
}
