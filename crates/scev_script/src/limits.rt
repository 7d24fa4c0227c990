/// The most sessions of an input.
pub const SESSION_LIMIT: usize = 16;

/// The most commands of a session.
pub const COMMAND_LIMIT: usize = 1024;

/// The most names that a session holds.
pub const HELD_LIMIT: u64 = 16;

/// The most `print` commands of a session.
pub const PRINT_LIMIT: u64 = 4;

/// The greatest budget of a run, and the greatest sum of the budgets of a session.
pub const BUDGET_LIMIT: u64 = 65_536;

/// The most digits of a number.
pub const DIGIT_LIMIT: usize = 20;

/// The most bytes of the name of a session, or of a name that a session holds.
pub const SESSION_NAME_LIMIT: usize = 32;

/// The greatest number of a version and of a loop.
pub const INDEX_LIMIT: u64 = u16::MAX as u64;

/// The greatest place of a definition and of a result; a greater one is kept as this one.
pub const PLACE_LIMIT: u64 = u32::MAX as u64;

/// The greatest number of an argument or a reply of a run, and the greatest number of an iteration.
pub const VALUE_LIMIT: u64 = u64::MAX;

/// How far below zero an argument or a reply of a run may be.
pub const BELOW_LIMIT: u64 = 1 << 63;
