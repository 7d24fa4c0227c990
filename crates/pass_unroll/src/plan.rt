/// The numbers of an `scf.for` whose bounds and step are constants: by their unsigned readings, and
/// how many iterations it makes.
#[derive(Clone, Copy, Debug, PartialEq, Eq)]
pub struct Plan {
    pub lower: u64,
    pub upper: u64,
    pub step: u64,
    pub count: u64,
}
