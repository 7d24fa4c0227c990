ghost use Rattle.std.specs.Prelude.{◌≡◌};
ghost use Rattle.mlir_ir.specs.Tokens as text;

use mlir_ir::{is_digit, is_letter};

/// Whether the byte is a hexadecimal digit.
pub fn is_hex_digit(b: u8) -> bool
    ensures { result ≡ text.is_hex_digit b }
{
    is_digit(b) || (b'A' <= b && b <= b'F') || (b'a' <= b && b <= b'f')
}

/// Whether a word may begin with the byte.
pub fn begins_word(b: u8) -> bool
    ensures { result ≡ text.begins_word b }
{
    is_letter(b) || b == b'_'
}

/// Whether the byte may stand in a word.
pub fn is_word_byte(b: u8) -> bool
    ensures { result ≡ text.is_word_byte b }
{
    is_letter(b) || is_digit(b) || b == b'_' || b == b'$' || b == b'.'
}

/// Whether the byte alone is a mark.
pub fn is_mark_byte(b: u8) -> bool
    ensures { result ≡ text.is_mark_byte b }
{
    b == b'('
        || b == b')'
        || b == b'{'
        || b == b'}'
        || b == b'<'
        || b == b'>'
        || b == b','
        || b == b':'
        || b == b'='
        || b == b'-'
}

/// Whether the byte is a blank: a space, a tab, CR or LF.
pub fn is_blank(b: u8) -> bool
    ensures { result ≡ text.is_blank b }
{
    b == b' ' || b == b'\t' || b == b'\r' || b == b'\n'
}
