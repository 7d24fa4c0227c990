ghost use Rattle.std.specs.Prelude.{◌≡◌, ◌<◌, ◌^◌, false, length};
ghost use Rattle.pass_copy.specs.Listed.{start, texts};

use crate::taken::Taken;

/// The names that copies get, each in its turn: those of what is copied, or the fresh names of a
/// function.
#[derive(Drop)]
pub struct Names<'f> {
    pub(crate) taken: Taken<'f>,
    pub(crate) kept: bool,
    /// How many were given.
    pub(crate) given: u32,
    /// The number from which the next fresh name is sought.
    pub(crate) next: u64,
    ghost few: { length (texts taken.names.items) < 2 ^ 31 },
    ghost at: { kept ≡ false → next ≡ start (texts taken.names.items) given },
}
