ghost use Rattle.std.specs.Prelude.{◌≡◌, true, false};
ghost use Rattle.scev_tree.specs.Polynomial.{variable_of};
ghost use Rattle.scev_tree.specs.Variable.{rank_of};

use arith_word::Label;

/// A variable of an expression: the symbol of a value, or the counter of a loop.
#[derive(Clone, Copy, Debug)]
pub struct Variable {
    pub counter: bool,
    pub label: Label,
}

impl Variable {
    /// The symbol of the value with this label.
    pub fn symbol_of(label: Label) -> Variable
        ensures { rank_of result ≡ variable_of false label.0 }
    {
        Variable {
            counter: false,
            label,
        }
    }

    /// The counter of the loop with this label.
    pub fn counter_of(label: Label) -> Variable
        ensures { rank_of result ≡ variable_of true label.0 }
    {
        Variable {
            counter: true,
            label,
        }
    }

    /// The place in the order: by label, and of a symbol and a counter with one label the symbol is
    /// the greater.
    pub fn rank(self) -> u64
        ensures { result ≡ rank_of self }
    {
        if self.counter {
            2 * u64::from(self.label.0)
        } else {
            2 * u64::from(self.label.0) + 1
        }
    }
}
