ghost use Rattle.std.specs.Prelude.{◌≡◌, ◌<◌, ◌^◌, slice_set, IfOk};
ghost use Rattle.scf_eval.specs.Machine as spec;
ghost use Rattle.mlir_ir.specs.Words.{bits_of};
ghost use Rattle.mlir_ir.specs.Runs.{number};
ghost use Rattle.scf_eval.specs.States.{slots, number_of, numbers};

use crate::input::Input;
use arith_word::{Label, List, Width, Word};
use mlir_ir::{Arg, IrType};
use std::alloc::AllocError;

/// The number modulo 2 to the width.
#[tactic(auto, using(arith_word::proofs::Residues::low_bits_are))]
pub(crate) fn word(w: Width, v: u64) -> Word
    ensures { number_of result ≡ number w v }
{
    Word { w, v: v & w.mask() }
}

/// The word of a slot that nothing has been written to.
pub(crate) fn no_word() -> Word
    ensures { number_of result ≡ spec.no_number }
{
    Word {
        w: Width::new(1).unwrap(),
        v: 0,
    }
}

/// The word at the slot.
pub(crate) fn word_at(values: &Vec<Word>, pos: usize) -> Word
    ensures { number_of result ≡ spec.number_at (numbers values.now.items) pos }
{
    if pos < values.len() {
        values[pos]
    } else {
        no_word()
    }
}

/// Writes the word to the slot, where there is one.
#[tactic(auto, using(crate::proofs::Lists::numbers_set, crate::proofs::Lists::set_past))]
pub(crate) fn write(values: &mut Vec<Word>, pos: usize, x: Word)
    ensures { numbers values.new.items ≡ slice_set (numbers values.old.items) pos (number_of x) }
{
    if pos < values.len() {
        values[pos] = x;
    }
}

/// The word of the label.
pub(crate) fn read(input: &Input, values: &Vec<Word>, label: Label) -> Word
    ensures { number_of result ≡ spec.read (slots input.now) (numbers values.now.items) label }
{
    word_at(values, input.slot(label))
}

/// The words of labels, in their order.
pub(crate) fn words_of(
    input: &Input,
    values: &Vec<Word>,
    labels: &[Label],
) -> Result<List<Word>, AllocError>
    ensures { IfOk result
        (λ words. numbers words
        ≡ spec.seen (slots input.now) (numbers values.now.items) labels.now) }
{
    let mut words = Vec::with_capacity(input.alloc, labels.len())?;
    for label in labels {
        words.push(read(input, values, *label))?;
    }
    Ok(List::from_vec(words))
}

/// Writes the words of labels to the slots from `pos` on.
pub(crate) fn copy(input: &Input, values: &mut Vec<Word>, pos: usize, labels: &[Label])
    requires { pos < 2 ^ 32 }
    ensures { numbers values.new.items
        ≡ spec.copied (slots input.now) (numbers values.old.items) pos labels.now }
{
    for (k, label) in labels.iter().enumerate() {
        let x = read(input, values, *label);
        write(values, pos + k, x);
    }
}

#[tactic(auto, using(crate::proofs::Lists::moved_step))]
/// Writes the words at the slots from `from` on, one for each argument, to those from `to` on.
pub(crate) fn enter(values: &mut Vec<Word>, from: usize, to: usize, args: &[Arg])
    requires from { from < 2 ^ 32 }
    requires to { to < 2 ^ 32 }
    ensures { numbers values.new.items ≡ spec.moved (numbers values.old.items) from to args.now }
{
    for k in 0..args.len() {
        let x = word_at(values, from + k);
        write(values, to + k, x);
    }
}

#[tactic(auto, using(crate::proofs::Lists::given_step, crate::proofs::Lists::given_end))]
/// Writes unsigned numbers, each modulo its type, to the slots from `pos` on.
pub(crate) fn give(values: &mut Vec<Word>, pos: usize, types: &[IrType], unsigned: &[u64])
    requires { pos < 2 ^ 32 }
    ensures { numbers values.new.items
        ≡ spec.given (numbers values.old.items) pos types.now unsigned.now }
{
    let n = types.len().min(unsigned.len());
    for k in 0..n {
        write(values, pos + k, word(types[k].width(), unsigned[k]));
    }
}
