ghost use Rattle.std.specs.Prelude.{◌≡◌, ◌<◌, ◌≤◌, ◌%◌, min};
ghost use Rattle.std.specs.Char as char;
ghost use Rattle.std.specs.Str.Parse.{digits_value};

/// The greatest number that is told from greater ones.
pub const CAP: u128 = 0x1_0000_0000_0000_0000;

/// The value of a digit, 36 of a byte that is none.
fn digit_value(b: u8) -> u8
    ensures value { result ≡ char.digit_value b }
    ensures small { result ≤ 36 }
{
    if b < b'0' {
        36
    } else if b < b'9' + 1 {
        b - b'0'
    } else if b < b'A' {
        36
    } else if b < b'Z' + 1 {
        b - 55
    } else if b < b'a' {
        36
    } else if b < b'z' + 1 {
        b - 87
    } else {
        36
    }
}

/// The number that the digits write; `CAP` for one that is greater.
pub fn capped(radix: u8, digits: &[u8]) -> u128
    requires { 1 ≤ radix }
    ensures value { result ≡ min (digits_value radix digits.now) CAP }
    ensures most { result ≤ CAP }
{
    let mut value = 0;
    for digit in digits {
        value = (value * u128::from(radix) + u128::from(digit_value(*digit))).min(CAP);
    }
    value
}

/// The remainder, by so many words of a width, of the number that the digits write.
pub(crate) fn remainder(radix: u8, digits: &[u8], words: u128) -> u128
    requires some { 0 < words }
    requires most { words ≤ CAP }
    ensures value { result ≡ digits_value radix digits.now % words }
    ensures less { result < words }
{
    let mut value = 0;
    for digit in digits {
        value = (value * u128::from(radix) + u128::from(digit_value(*digit))) % words;
    }
    value
}
