ghost use Rattle.std.specs.Prelude.{◌≡◌, ◌==◌, ℕ, Some, None, OnOk, IfOk, if◌then◌else◌};
ghost use Rattle.std.specs.Option.{option_or};
ghost use Rattle.scev_text.specs.Kept.{loop_in};
ghost use Rattle.scev_text.specs.Naming.{loop_number};

use arith_word::Label;
use mlir_ir::LoopLabels;
use std::alloc::{AllocError, Global};
use std::collections::HashMap;

/// The numbers of a function's loops by the labels of their counters.
#[derive(Drop)]
pub struct LoopNumbers {
    numbers: HashMap<u32, usize>,
}

impl LoopNumbers {
    /// The numbers of loops, from 0 in their order.
    pub fn new(alloc: Global, loops: &[LoopLabels]) -> Result<LoopNumbers, AllocError>
        ensures { IfOk result
            (λ known. (label : ℕ) → loop_in known label ≡ loop_number loops.now label) }
    {
        let mut known = LoopNumbers {
            numbers: HashMap::new(alloc),
        };
        for (number, labels) in loops.iter().enumerate() {
            known.add(labels.counter, number)?;
        }
        Ok(known)
    }

    /// Adds a loop, unless one with that counter has a number.
    fn add(&mut self, counter: Label, number: usize) -> Result<(), AllocError>
        ensures { OnOk result
            ((label : ℕ) → loop_in self.new label
            ≡ option_or (loop_in self.old label)
            (if counter.0 == label then Some number else None)) }
    {
        match self.numbers.get(&counter.0) {
            Some(_) => Ok(()),
            None => {
                self.numbers.insert(counter.0, number)?;
                Ok(())
            }
        }
    }

    /// The number of the loop with that counter; `None` where there is none.
    pub fn get(&self, counter: Label) -> Option<usize>
        ensures { result ≡ loop_in self.now counter.0 }
    {
        self.numbers.get(&counter.0).copied()
    }
}
