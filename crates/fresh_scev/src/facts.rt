ghost use Rattle.std.specs.Prelude.{◌≡◌, IfNone, IfSome};
ghost use Rattle.std.specs.Option.{option_copied};
ghost use Rattle.trip_count.specs.declared.answer.Turns.TheVariants.{Unknown};
ghost use Rattle.trip_count.specs.declared.answer.Why.TheVariants.{NotACompare};
ghost use Rattle.fresh_scev.specs.Answers.{count_at, facts_shown, value_at};
ghost use Rattle.fresh_scev.specs.Expressions.{expression_of, number};
ghost use Rattle.fresh_scev.specs.Table.{fact_at};

use crate::fact::Fact;
use arith_word::Label;
use scev_tree::Expr;
use sqlite_items::Items;
use trip_count::Turns;

/// The facts of a function, by the item and the index that a label names.
#[derive(Drop)]
pub struct Facts {
    pub func: u8,
    pub items: Items<Items<Fact>>,
}

impl Facts {
    /// The fact of the label.
    #[tactic(auto, using(crate::proofs::TableFacts::none_in))]
    fn fact(&self, label: Label) -> Option<&Fact>
        ensures { option_copied result ≡ fact_at self.now.func self.now.items label.0 }
    {
        if label.func() != self.func {
            return None;
        }
        match self.items.get(label.item()) {
            Some(facts) => facts.get(label.index()),
            None => None,
        }
    }

    /// The expression of the value; `None` exactly where the label names no value.
    pub fn expr(&self, v: Label) -> Option<&Expr>
        ensures value { option_copied result ≡ value_at self.now v.0 }
        ensures known { IfSome result (λ e. expression_of e.now ≡ (facts_shown self.now).expr v.0) }
        ensures unknown { IfNone result ((facts_shown self.now).expr v.0 ≡ number 1 0) }
    {
        match self.fact(v) {
            Some(Fact::Value(expr, _)) => Some(expr),
            _ => None,
        }
    }

    /// The trip count of the loop with this counter; `None` exactly where the label names no loop.
    pub fn turns(&self, counter: Label) -> Option<&Turns>
        ensures count { option_copied result ≡ count_at self.now counter.0 }
        ensures known { IfSome result (λ t. t.now ≡ (facts_shown self.now).turns counter.0) }
        ensures unknown { IfNone result
            ((facts_shown self.now).turns counter.0 ≡ Unknown NotACompare) }
    {
        match self.fact(counter) {
            Some(Fact::Loop(turns)) => Some(turns),
            _ => None,
        }
    }
}
