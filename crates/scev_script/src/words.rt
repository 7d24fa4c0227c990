ghost use Rattle.std.specs.Prelude.{◌≡◌, IfOk, map};
ghost use Rattle.scev_script.specs.Words.{is_full, words_of};

use crate::bytes::is_blank_byte;
use std::alloc::{AllocError, Global};

fn is_full_word(word: &[u8]) -> bool
    ensures { result ≡ is_full word.now }
{
    match word {
        [] => false,
        [_, ..] => true,
    }
}

/// The words of a line, which spaces and tabs part.
pub fn words_in<'a>(alloc: Global, line: &'a [u8]) -> Result<Vec<&'a [u8]>, AllocError>
    ensures { IfOk result (λ v. map (λ w. w.now) v.items ≡ words_of line.now) }
{
    line.split(|b| is_blank_byte(*b))
        .filter(|word| is_full_word(word))
        .collect(alloc)
}
