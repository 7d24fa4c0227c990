ghost use Rattle.std.specs.Prelude.{◌≡◌, ◌+◌, ◌++◌, ◌∷◌, [], OnOk, OnErr, take};
ghost use Rattle.std.specs.Option.{option_copied};
ghost use Rattle.trip_count.specs.declared.answer.Turns.TheVariants.{Unknown};
ghost use Rattle.trip_count.specs.declared.answer.Why.TheVariants.{NotACompare};
ghost use Rattle.fresh_scev.specs.Expressions.{expression_of, number};
ghost use Rattle.fresh_scev.specs.Sealed.{Seals};
ghost use Rattle.fresh_scev.specs.Table.{fact_at, facts_of, next_label, HasRoom, IsSameTable, as_value, role_by};

use crate::fact::{Comparison, Fact};
use crate::table::Table;
use arith_word::{Label, Width};
use scev_tree::{Expr, num};
use sqlite_items::Items;
use std::alloc::{AllocError, Global};
use std::mem;
use trip_count::Turns;

/// The expression of a label without a value.
pub(crate) fn zero() -> Expr
    ensures { expression_of result ≡ number 1 0 }
{
    num(Width::new(1).unwrap(), 0)
}

impl Table {
    /// No facts.
    pub(crate) fn new(alloc: Global, func: u8) -> Table
        ensures func { result.func ≡ func }
        ensures items { result.items ≡ [] }
        ensures here { result.here.items ≡ [] }
        ensures conditions { result.conditions.items ≡ [] }
    {
        Table {
            alloc,
            func,
            items: Items::new(alloc),
            here: Vec::new(alloc),
            conditions: Vec::new(alloc),
        }
    }

    /// The label of the next fact.
    pub(crate) fn next(&self) -> Label
        requires { HasRoom self.now 0 }
        ensures { result.0 ≡ next_label self.now }
    {
        Label::new(self.func, self.items.len(), self.here.len())
    }

    /// The fact of the label.
    fn fact(&self, label: Label) -> Option<&Fact>
        ensures { option_copied result ≡ fact_at self.now.func
            (self.now.items ++ self.now.here.items ∷ []) label.0 }
    {
        if label.func() != self.func {
            return None;
        }
        if label.item() == self.items.len() {
            return self.here.as_slice().get(label.index());
        }
        match self.items.get(label.item()) {
            Some(facts) => facts.get(label.index()),
            None => None,
        }
    }

    /// The expression of the value; a label without one has the number 0.
    pub(crate) fn expr<'a>(&'a self, label: Label, zero: &'a Expr) -> &'a Expr
        requires { expression_of zero.now ≡ number 1 0 }
        ensures { expression_of result.now ≡ (facts_of self.entry.now).expr label.0 }
    {
        match self.fact(label) {
            Some(Fact::Value(expr, _)) => expr,
            _ => zero,
        }
    }

    /// The trip count of the loop with this counter; that of a label without a loop isn't known.
    pub(crate) fn turns<'a>(&'a self, counter: Label, unknown: &'a Turns) -> &'a Turns
        requires { unknown.now ≡ Unknown NotACompare }
        ensures { result.now ≡ (facts_of self.entry.now).turns counter.0 }
    {
        match self.fact(counter) {
            Some(Fact::Loop(turns)) => turns,
            _ => unknown,
        }
    }

    /// The comparison whose result the value is; `None` for any other label.
    pub(crate) fn test(&self, label: Label) -> Option<Comparison>
        ensures { role_by result ≡ as_value ((facts_of self.now).role label.0) }
    {
        match self.fact(label) {
            Some(Fact::Value(_, test)) => *test,
            _ => None,
        }
    }

    /// Adds a fact.
    pub(crate) fn push(&mut self, fact: Fact) -> Result<(), AllocError>
        ensures same { IsSameTable self.old self.new }
        ensures pushed { OnOk result (self.new.here.items ≡ self.old.here.items ++ fact ∷ []) }
        ensures failed { OnErr result (self.new.here.items ≡ self.old.here.items) }
    {
        self.here.push(fact)?;
        Ok(())
    }

    /// Takes the facts back that came behind the first `len` of the item under way.
    pub(crate) fn truncate(&mut self, len: usize)
        ensures same { IsSameTable self.old self.new }
        ensures front { self.new.here.items ≡ take len self.old.here.items }
    {
        self.here.truncate(len);
    }

    /// Ends the item under way: the next one begins.
    pub(crate) fn seal(&mut self) -> Result<(), AllocError>
        ensures { OnOk result (Seals self.old self.new) }
    {
        let done = mem::replace(&mut self.here, Vec::new(self.alloc));
        self.items.push(Items::from_vec(done))?;
        Ok(())
    }
}
