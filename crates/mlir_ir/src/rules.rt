/// Whether a place of a function keeps its four rules.
#[derive(Clone, Copy, Debug, PartialEq, Eq)]
pub struct Rules {
    /// What it uses is in scope.
    pub in_scope: bool,
    /// Its types agree, its names are well formed and free, and its flags may stand.
    pub typed: bool,
    /// Its lists have the lengths that belong together.
    pub counted: bool,
    /// No limit is passed.
    pub sized: bool,
}

/// A place in the order of a function's text: the next label, the last one that is given, and the
/// number of operations before.
#[derive(Clone, Copy, Debug, PartialEq, Eq)]
pub struct Position {
    pub next: u32,
    pub last: u32,
    pub ops: u32,
}

/// What is around a place: the open regions and loops, and whether the item keeps its limits.
#[derive(Clone, Copy, Debug, PartialEq, Eq)]
pub struct Nest {
    pub regions: u32,
    pub loops: u32,
    pub item_fits: bool,
}
