ghost use Rattle.std.specs.Prelude.{◌≡◌, ◌++◌, [], codes, nat_lt, slice_get, OnOk, IfOk, string_bytes, if◌then◌else◌};
ghost use Rattle.std.specs.Fmt.{decimal};
ghost use Rattle.std.specs.Option.{option_map};
ghost use Rattle.mlir_ir.specs.Check.{IsWellFormed};
ghost use Rattle.scev_text.specs.Kept.{AreNamed};
ghost use Rattle.scev_text.specs.Naming.{naming_of, label_named, symbol_text, loop_text};

use crate::definitions::Definitions;
use crate::loop_numbers::LoopNumbers;
use arith_word::{Label, List, Text};
use mlir_ir::{Func, LoopLabels, loops};
use mlir_print::{Names, Slot};
use std::alloc::{AllocError, Global};
use std::marker::Model;

/// The values and the loops of a function by their names, labels and numbers.
#[derive(Drop)]
pub struct ValueNames<'a> {
    names: Names<'a>,
    definitions: Definitions<'a>,
    loops: List<LoopLabels>,
    numbers: LoopNumbers,
}

impl<'a> Model for ValueNames<'a> {
    ghost use Rattle.scev_text.specs.Naming.{Naming};
    ghost use Rattle.scev_text.specs.Kept.{AreNamed};

    ghost Value = { Naming };

    ghost view = { λ n. record { values = n.names.values; loops = n.loops } };

    ghost invariant = { λ n. AreNamed n.definitions n.names.values n.numbers n.loops };
}

/// Adds the name of definition `nth`, from 1, which is said from the second definition on.
fn push_name(out: &mut String, name: &Text, nth: usize) -> Result<(), AllocError>
    ensures { OnOk result
        (string_bytes out.new ≡ string_bytes out.old ++ codes "%" ++ name.now
        ++ (if nat_lt 1 nth then codes "!" ++ decimal nth else [])) }
{
    write!(out, "%{name}")?;
    if nth > 1 {
        write!(out, "!{nth}")
    } else {
        Ok(())
    }
}

impl<'a> ValueNames<'a> {
    /// The names of the values and the loops of a function.
    pub fn new(alloc: Global, func: &'a Func) -> Result<ValueNames<'a>, AllocError>
        requires { IsWellFormed func.now }
        ensures { IfOk result (λ names. names ≡ naming_of func.now) }
    {
        // The labels fit, since the function's number is a byte.
        let _index = func.index;
        let names = Names::new(alloc, &[], func)?;
        let definitions = Definitions::new(alloc, &names)?;
        let loops = loops(alloc, func)?;
        let numbers = LoopNumbers::new(alloc, loops.as_slice())?;
        Ok(ValueNames {
            names,
            definitions,
            loops,
            numbers,
        })
    }

    /// The label of result `place`, from 0, of definition `nth`, from 1, of a name.
    pub fn value(&self, name: &[u8], nth: u32, place: u32) -> Option<Label>
        ensures { option_map (λ l. l.0) result ≡ label_named self.now.values name.now nth place }
    {
        let definition = self.definitions.get(name, nth as usize)?;
        if place < u32::from(definition.count) {
            Some(Label(definition.label.0 + place))
        } else {
            None
        }
    }

    /// The labels of the loop with that number.
    pub fn loop_labels(&self, number: usize) -> Option<LoopLabels>
        ensures { result ≡ slice_get self.now.loops number }
    {
        self.loops.as_slice().get(number).copied()
    }

    /// Adds the name of the value with that label; nothing where there is none.
    pub fn push_symbol(&self, out: &mut String, label: Label) -> Result<(), AllocError>
        ensures { OnOk result
            (string_bytes out.new ≡ string_bytes out.old ++ symbol_text self.now.values label.0) }
    {
        match self.names.slot(label) {
            Some(Slot::Argument(arg)) => push_name(out, &arg.name, self.definitions.number(label)),
            Some(Slot::Part(pack, place, _)) => {
                push_name(out, &pack.name, self.definitions.number(label))?;
                if pack.count > 1 {
                    write!(out, "#{place}")
                } else {
                    Ok(())
                }
            }
            _ => Ok(()),
        }
    }

    /// Adds the number of the loop with that counter behind `#`; no number where there is none.
    pub fn push_loop(&self, out: &mut String, counter: Label) -> Result<(), AllocError>
        ensures { OnOk result
            (string_bytes out.new ≡ string_bytes out.old ++ loop_text self.now.loops counter.0) }
    {
        write!(out, "#")?;
        match self.numbers.get(counter) {
            Some(number) => write!(out, "{number}"),
            None => Ok(()),
        }
    }
}
