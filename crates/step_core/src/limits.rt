/// The greatest number of publications, which is the number of log places.
pub const MOST_PUBLICATIONS: u16 = 4_095;

/// The least number of cells, and of memo places.
pub const FEWEST_PLACES: u32 = 64;

/// The greatest number of cells, and of memo places.
pub const MOST_PLACES: u32 = 1_048_576;

/// The greatest number of authors, which is the greatest number of sessions.
pub const MOST_AUTHORS: u8 = 16;
