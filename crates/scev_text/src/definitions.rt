ghost use Rattle.std.specs.Prelude.{◌≡◌, ◌==◌, ◌&&◌, ◌+◌, ◌^◌, ◌<◌, ℕ, List, [], ◌∷◌, ◌++◌, length, Some, OnOk, IfOk, if◌then◌else◌};
ghost use Rattle.std.specs.Str.{bytes_eq};
ghost use Rattle.arith_word.specs.Labels.{label_at, item_count};
ghost use Rattle.mlir_ir.specs.Values.{Value};
ghost use Rattle.mlir_ir.specs.declared.types.IrType.{IrType};
ghost use Rattle.mlir_print.specs.Slots.{slot_values, IsShort};
ghost use Rattle.scev_text.specs.Kept.{count_in, definition_in, number_in, value_of, values_in, AreKept};

use arith_word::Label;
use mlir_print::{Names, Slot};
use std::alloc::{AllocError, Global};
use std::collections::HashMap;

/// A result of a pack: its label, and how many results the pack has.
#[derive(Clone, Copy)]
pub struct PackValue {
    pub label: Label,
    pub count: u8,
}

/// The definitions of names, and which definition of its name each value is.
#[derive(Drop)]
pub struct Definitions<'a> {
    // How many definitions a name has.
    counts: HashMap<&'a [u8], usize>,
    // The first results of the definitions, by the names and the definitions' numbers, from 1.
    firsts: HashMap<(&'a [u8], usize), PackValue>,
    // The numbers of the definitions that values belong to, by the values' labels.
    numbers: HashMap<u32, usize>,
}

impl<'a> Definitions<'a> {
    /// The definitions of a function's names.
    pub fn new(alloc: Global, names: &Names<'a>) -> Result<Definitions<'a>, AllocError>
        ensures { IfOk result (λ known. (behind : ℕ) × AreKept known behind names.now.values) }
    {
        let mut known = Definitions {
            counts: HashMap::new(alloc),
            firsts: HashMap::new(alloc),
            numbers: HashMap::new(alloc),
        };
        let (func, rows) = names.rows();
        for (number, row) in rows.iter().enumerate() {
            known.add_row(func, number, row.as_slice())?;
        }
        Ok(known)
    }

    /// The first result of definition `nth`, from 1, of a name; `None` where there is none.
    pub fn get(&self, name: &[u8], nth: usize) -> Option<PackValue>
        ensures { result ≡ definition_in self.now name.now nth }
    {
        self.firsts.get(&(name, nth)).copied()
    }

    /// Which definition of its name the value with that label is, from 1; 0 where there is none.
    pub fn number(&self, label: Label) -> usize
        ensures { result ≡ number_in self.now label.0 }
    {
        self.numbers.get(&label.0).copied().unwrap_or(0)
    }

    /// How many definitions of the name there are.
    fn count(&self, name: &[u8]) -> usize
        ensures { result ≡ count_in self.now name.now }
    {
        self.counts.get(name).copied().unwrap_or(0)
    }

    /// Says which definition of its name a value is.
    fn set_number(&mut self, label: Label, nth: usize) -> Result<(), AllocError>
        ensures numbers { OnOk result ((q : ℕ)
            → number_in self.new q ≡ (if label.0 == q then nth else number_in self.old q)) }
        ensures counts { self.new.counts ≡ self.old.counts }
        ensures firsts { self.new.firsts ≡ self.old.firsts }
    {
        self.numbers.insert(label.0, nth)?;
        Ok(())
    }

    /// Adds a definition of a name by its first result. Returns the definition's number, from 1.
    fn define(&mut self, name: &'a [u8], first: PackValue) -> Result<usize, AllocError>
        requires { count_in self.old name.now + 1 < 2 ^ 64 }
        ensures counts { OnOk result ((q : List ℕ) → count_in self.new q
            ≡ (if bytes_eq name.now q then count_in self.old name.now
            + 1 else count_in self.old q)) }
        ensures firsts { OnOk result ((q : List ℕ) (n : ℕ) → definition_in self.new q n
            ≡ (if bytes_eq name.now q && count_in self.old name.now + 1 == n then Some first
            else definition_in self.old q n)) }
        ensures numbers { self.new.numbers ≡ self.old.numbers }
        ensures nth { IfOk result (λ nth. nth ≡ count_in self.old name.now + 1) }
    {
        let nth = self.count(name) + 1;
        self.counts.insert(name, nth)?;
        self.firsts.insert((name, nth), first)?;
        Ok(nth)
    }

    /// Adds a value whose label is behind the others': result `place`, from 0, of its pack.
    fn add(&mut self, name: &'a [u8], value: PackValue, place: usize) -> Result<(), AllocError>
        requires label { value.label.0 < 2 ^ 32 }
        requires kept { (values : List Value) × AreKept self.old value.label.0 values }
        ensures { OnOk result
            ((values : List Value) (ty : IrType) → AreKept self.old value.label.0 values
            → AreKept self.new (value.label.0 + 1)
            (values ++ value_of name.now value place ty ∷ [])) }
    {
        if place == 0 {
            let nth = self.define(name, value)?;
            self.set_number(value.label, nth)
        } else {
            let nth = self.count(name);
            self.set_number(value.label, nth)
        }
    }

    /// Adds what a label stands for, behind what lower labels stand for.
    fn add_slot(&mut self, label: Label, slot: &Slot<'a>) -> Result<(), AllocError>
        requires label { label.0 < 2 ^ 32 }
        requires kept { (values : List Value) × AreKept self.old label.0 values }
        ensures { OnOk result
            ((values : List Value) → AreKept self.old label.0 values
            → AreKept self.new (label.0 + 1) (values ++ values_in label.0 slot.now)) }
    {
        match slot {
            Slot::Empty => Ok(()),
            Slot::Argument(arg) => {
                let value = PackValue { label, count: 1 };
                self.add(arg.name.as_bytes(), value, 0)
            }
            Slot::Part(pack, place, _) => {
                let count = pack.count;
                self.add(pack.name.as_bytes(), PackValue { label, count }, *place)
            }
        }
    }

    /// Adds what the labels of an item stand for, or those of the arguments as number 0.
    fn add_row(&mut self, func: u8, number: usize, row: &[Slot<'a>]) -> Result<(), AllocError>
        requires number { number < item_count }
        requires short { IsShort row.now }
        requires kept { (values : List Value) × AreKept self.old (label_at func number 0) values }
        ensures { OnOk result
            ((values : List Value) → AreKept self.old (label_at func number 0) values
            → AreKept self.new (label_at func number 0 + length row.now)
            (values ++ slot_values (label_at func number 0) row.now)) }
    {
        for (index, slot) in row.iter().enumerate() {
            self.add_slot(Label::new(func, number, index), slot)?;
        }
        Ok(())
    }
}
