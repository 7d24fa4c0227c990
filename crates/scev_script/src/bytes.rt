ghost use Rattle.std.specs.Prelude.{◌≡◌, ◌≤◌, ◌==◌, length};
ghost use Rattle.std.specs.List.{position_or_len};
ghost use Rattle.scev_script.specs.Names.{is_session_byte};
ghost use Rattle.scev_script.specs.Words.{is_blank};

use mlir_ir::{is_digit, is_letter};

/// Whether the byte may stand in the name of a session.
pub fn is_session(byte: u8) -> bool
    ensures { result ≡ is_session_byte byte }
{
    is_letter(byte) || is_digit(byte) || byte == b'_'
}

/// Whether the byte is a space or a tab.
pub fn is_blank_byte(byte: u8) -> bool
    ensures { result ≡ is_blank byte }
{
    byte == b' ' || byte == b'\t'
}

/// How many bytes are before the first such byte, all where there is none.
#[tactic(auto, using(crate::proofs::ByteLists::first_within))]
pub fn place_of_first(mark: u8, bytes: &[u8]) -> usize
    ensures value { result ≡ position_or_len (λ b. b == mark) bytes.now }
    ensures within { result ≤ length bytes.now }
{
    bytes.iter().take_while(|b| **b != mark).count()
}
