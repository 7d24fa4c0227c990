use crate::first::First;
use crate::scope::Scope;

/// The values in scope where the walk is, and the breaks noted so far.
#[derive(Drop)]
pub struct Walked<'a> {
    pub scope: Scope<'a>,
    pub first: First,
}
