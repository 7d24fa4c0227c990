ghost use Rattle.std.specs.Prelude.{◌≡◌, ◌≤◌, ◌<◌, ◌^◌};
ghost use Rattle.scev_script.specs.Numbers as numbers;

use crate::limits::{BELOW_LIMIT, DIGIT_LIMIT, PLACE_LIMIT, VALUE_LIMIT};
use mlir_ir::is_digit;

/// The number of 1 to 20 decimal digits.
#[tactic(auto, using(crate::proofs::Digits::digit_reads, crate::proofs::Digits::fits))]
fn number(word: &[u8]) -> Option<u128>
    ensures { result ≡ numbers.number_of word.now }
{
    if word.is_empty() || word.len() > DIGIT_LIMIT {
        return None;
    }
    let mut n: u128 = 0;
    for b in word {
        if !is_digit(*b) {
            return None;
        }
        n = n * 10 + u128::from(*b - b'0');
    }
    Some(n)
}

/// The number, where it is at most that.
pub fn number_up_to(most: u64, word: &[u8]) -> Option<u64>
    ensures { result ≡ numbers.number_up_to most word.now }
{
    let n = number(word)?;
    if n <= u128::from(most) {
        Some(n as u64)
    } else {
        None
    }
}

/// The place that the number tells; one that is too great is kept as the greatest.
pub fn place(word: &[u8]) -> Option<u32>
    ensures { result ≡ numbers.place_of word.now }
{
    let n = number(word)?;
    Some(n.min(u128::from(PLACE_LIMIT)) as u32)
}

/// The residue of -n modulo 2^64.
fn residue_below(n: u64) -> u64
    ensures { result ≡ numbers.residue_below n }
{
    if n == 0 { 0 } else { u64::MAX - (n - 1) }
}

/// An argument or a reply of a run, modulo 2^64.
pub fn value(word: &[u8]) -> Option<u64>
    ensures { result ≡ numbers.value_of word.now }
{
    match word.split_first() {
        None => None,
        Some((first, digits)) => {
            if *first == b'-' {
                let n = number_up_to(BELOW_LIMIT, digits)?;
                Some(residue_below(n))
            } else {
                number_up_to(VALUE_LIMIT, word)
            }
        }
    }
}
