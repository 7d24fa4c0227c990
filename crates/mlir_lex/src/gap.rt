ghost use Rattle.std.specs.Prelude.{◌≡◌, ◌≤◌, length, drop, false};
ghost use Rattle.mlir_ir.specs.Tokens as text;

use crate::bytes::is_blank;
use crate::front::is_next;

/// The number of leading bytes of whitespace and comments.
#[tactic(auto, using(crate::proofs::Gaps::in_comment, crate::proofs::Gaps::at_blank, crate::proofs::Gaps::at_slashes, crate::proofs::Gaps::at_token, crate::proofs::Gaps::at_end))]
pub fn gap_len(bytes: &[u8]) -> usize
    ensures rest { drop result bytes.now ≡ text.behind_gap false bytes.now }
    ensures within { result ≤ length bytes.now }
{
    let mut comment = false;
    for (at, b) in bytes.iter().enumerate() {
        if comment {
            comment = *b != b'\n';
        } else if !is_blank(*b) {
            if *b != b'/' || !is_next(b'/', bytes.split_at(at + 1).1) {
                return at;
            }
            comment = true;
        }
    }
    bytes.len()
}
