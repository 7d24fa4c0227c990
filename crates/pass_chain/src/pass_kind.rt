ghost use Rattle.std.specs.Prelude.{◌≡◌};
ghost use Rattle.pass_chain.specs.declared.pass_kind.Unmade.TheVariants.{NoMemory};

use std::alloc::AllocError;

/// What a pass does to a loop.
#[derive(Clone, Copy, Debug, PartialEq, Eq)]
pub enum PassKind {
    /// Several iterations in one, and the rest behind them.
    Unroll,
    /// All iterations one behind another, without the loop.
    UnrollFull,
    /// The first iteration in front of the loop.
    Peel,
    /// The results as operations behind the loop.
    ExitValues,
    /// A product with the variable as a sum that grows from iteration to iteration.
    Reduce,
}

/// Why a pass isn't done: the first that applies.
#[derive(Clone, Copy, Debug, PartialEq, Eq)]
pub enum PassRefusal {
    /// The target is no `scf.for`.
    NotFor,
    /// The trip count isn't a number.
    CountNotKnown,
    /// There are too few iterations.
    NoTurn,
    /// There are too many.
    TooManyTurns,
    /// The step of the unrolled loop is too large for its type.
    StepTooLarge,
    /// No part of the loop can be changed.
    NothingToDo,
    /// The child passes a limit.
    TooLarge,
}

/// Why a pass makes no child of a function.
#[derive(Clone, Copy, Debug, PartialEq, Eq)]
pub enum Unmade {
    /// Memory was refused.
    NoMemory,
    Refused(PassRefusal),
}

impl From<AllocError> for Unmade {
    ghost from_gives = { λ _ e. e ≡ NoMemory };

    fn from(_e: AllocError) -> Unmade {
        Unmade::NoMemory
    }
}
