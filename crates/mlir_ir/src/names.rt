ghost use Rattle.std.specs.Prelude.{◌≡◌};
ghost use Rattle.std.specs.List.{list_all};
ghost use Rattle.mlir_ir.specs.Names as spec;

/// Whether the byte is a decimal digit.
pub fn is_digit(b: u8) -> bool
    ensures { result ≡ spec.is_digit b }
{
    b'0' <= b && b <= b'9'
}

/// Whether the byte is an ASCII letter.
pub fn is_letter(b: u8) -> bool
    ensures { result ≡ spec.is_letter b }
{
    (b'A' <= b && b <= b'Z') || (b'a' <= b && b <= b'z')
}

/// Whether the byte may stand in a name.
pub fn is_name_byte(b: u8) -> bool
    ensures { result ≡ spec.is_name_byte b }
{
    is_letter(b) || is_digit(b) || b == b'$' || b == b'.' || b == b'_' || b == b'-'
}

fn are_digits(bytes: &[u8]) -> bool
    ensures { result ≡ list_all spec.is_digit bytes.now }
{
    bytes.iter().all(|b| is_digit(*b))
}

fn are_name_bytes(bytes: &[u8]) -> bool
    ensures { result ≡ list_all spec.is_name_byte bytes.now }
{
    bytes.iter().all(|b| is_name_byte(*b))
}

/// Whether the bytes are the name of a value or a function: digits alone, or letters, digits, `$`,
/// `.`, `_` and `-` of which the first is no digit.
pub fn is_name(name: &[u8]) -> bool
    ensures { result ≡ spec.is_name name.now }
{
    if name.is_empty() {
        return false;
    }
    if is_digit(name[0]) {
        are_digits(&name[1..])
    } else {
        are_name_bytes(name)
    }
}
