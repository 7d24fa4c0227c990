ghost use Rattle.std.specs.Prelude.{◌≡◌};
ghost use Rattle.step_core.specs.Paths.{start_of};
ghost use Rattle.step_core.specs.Words.{IsSize};

/// 2^64 divided by the golden ratio.
const GOLDEN: u64 = 0x9E37_79B9_7F4A_7C15;

/// The place where the path of a word begins: the highest bits of the word's hash, as many as the
/// size takes. It is where a cell is looked for first, and a memo's key.
pub fn start(word: u64, size: u32) -> u32
    requires { IsSize size }
    ensures { result ≡ start_of word size }
{
    // The quotient is 2^64 divided by the size, which is a power of two.
    let unit = u64::MAX / u64::from(size) + 1;
    (word.wrapping_mul(GOLDEN) / unit) as u32
}
