use step_core::View;

/// How many cells and how many memo places a table has. Each is a power of two from 64 to
/// 1,048,576.
#[derive(Clone, Copy, Debug, PartialEq, Eq)]
pub struct Sizes {
    pub cells: u32,
    pub memo: u32,
}

/// A view, with the sizes of its table. No value of this type is made: it is for contracts.
pub struct SizedView {
    pub view: View,
    pub sizes: Sizes,
}

/// The number of the first word that holds a key. Word 0 belongs to no place, and the log's words
/// follow it.
pub(crate) const FIRST_KEY: usize = 4_096;
