ghost use Rattle.std.specs.Prelude.{◌≡◌, ◌<◌};
ghost use Rattle.arith_word.specs.Labels as spec;

/// The place of a value or of a loop's counter in a module: the number of the function times 2^24,
/// plus the number of the item times 2^14, plus the index in the item. Labels are ordered as places.
#[derive(Clone, Copy, Debug, PartialEq, Eq, PartialOrd, Ord)]
pub struct Label(pub u32);

impl Label {
    /// How many items of a function labels tell apart.
    pub const ITEM_COUNT: u32 = 1 << 10;

    /// How many indices of an item labels tell apart.
    pub const INDEX_COUNT: u32 = 1 << 14;

    /// The label with that index in that item of that function.
    pub fn new(func: u8, item: usize, index: usize) -> Label
        requires item { item < spec.item_count }
        requires index { index < spec.index_count }
        ensures { result.0 ≡ spec.label_at func item index }
    {
        let items = u32::from(func) * Label::ITEM_COUNT + item as u32;
        Label(items * Label::INDEX_COUNT + index as u32)
    }

    /// The number of the function.
    pub fn func(self) -> u8
        ensures { result ≡ spec.func_of self.0 }
    {
        (self.0 / Label::INDEX_COUNT / Label::ITEM_COUNT) as u8
    }

    /// The number of the item in its function.
    pub fn item(self) -> usize
        ensures { result ≡ spec.item_of self.0 }
    {
        (self.0 / Label::INDEX_COUNT % Label::ITEM_COUNT) as usize
    }

    /// The index in the item.
    pub fn index(self) -> usize
        ensures { result ≡ spec.index_of self.0 }
    {
        (self.0 % Label::INDEX_COUNT) as usize
    }
}
