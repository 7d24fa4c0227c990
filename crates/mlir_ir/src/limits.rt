//! The limits of a module, of its functions and of their parts.

/// The most functions of a module.
pub const FUNC_LIMIT: usize = 256;

/// The most operations of a module.
pub const MODULE_OP_LIMIT: u32 = 65_536;

/// The most operations of a function.
pub const OP_LIMIT: u32 = 8_192;

/// The most items of a function.
pub const ITEM_LIMIT: usize = 1_023;

/// The most labels of an item.
pub const LABEL_LIMIT: u32 = 16_383;

/// The most arguments of a function, of a region or of a call.
pub const ARG_LIMIT: usize = 16;

/// The most loop-carried values of a loop, which are arguments of its regions.
pub const CARRIED_LIMIT: usize = ARG_LIMIT;

/// The most results of a function or of an operation.
pub const RESULT_LIMIT: usize = 16;

/// The most regions that are open at a place.
pub const REGION_LIMIT: u32 = 12;

/// The most loops in one another.
pub const LOOP_LIMIT: u32 = 6;

/// The most bytes of a name.
pub const NAME_LIMIT: usize = 64;
