ghost use Rattle.std.specs.Prelude.{◌≡◌};
ghost use Rattle.scf_eval.specs.States.{slot_of};

use arith_word::Label;
use std::alloc::Global;

/// What stays the same during a run: for each item the slot of its first label, the budget, and
/// where memory is taken from.
#[derive(Drop)]
pub(crate) struct Input<'a> {
    pub begins: &'a [u32],
    pub budget: u64,
    pub alloc: Global,
}

impl<'a> Input<'a> {
    /// The slot of the label.
    pub(crate) fn slot(&self, label: Label) -> usize
        ensures { result ≡ slot_of self.now.begins.now label.0 }
    {
        let item = label.item();
        let begin = if item < self.begins.len() {
            self.begins[item]
        } else {
            0
        };
        begin as usize + label.index()
    }
}
