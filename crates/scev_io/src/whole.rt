ghost use Rattle.std.specs.Prelude.{◌≡◌, ℕ, ◌+◌, ◌<◌, ◌≤◌, List, length, take, IfOk, OnOk, OnErr, vec_len};
ghost use Rattle.scev_io.specs.Bytes.{before_giving, after_putting, IsSpent};
ghost use Rattle.scev_io.specs.Faults.{Rose, HasCause};

use crate::stream::{Failed, Sink, Source};
use std::alloc::Global;

/// Why a source wasn't read to its end.
#[derive(Clone, Copy, Debug, PartialEq, Eq)]
pub enum ReadEnd {
    /// A call of the source failed.
    Fault,
    /// It gave more bytes than are wanted.
    TooLong,
    /// Memory ran out.
    NoMemory,
}

const PIECE: usize = 4096;

/// All bytes of the source, where they are at most `most`. `TooLong` comes exactly where one byte
/// more than `most` was read, and `Fault` only where the source's count of faults rose.
#[tactic(auto, using(crate::proofs::Give::give_again, crate::proofs::Give::give_nothing))]
pub fn read_all<S: Source>(alloc: Global, src: &mut S, most: u32) -> Result<Vec<u8>, ReadEnd>
    ensures whole { IfOk result (λ all. S.left src.old ≡ before_giving all.items (S.left src.new)) }
    ensures spent { IfOk result (λ all. IsSpent (S.left src.new)) }
    ensures short { IfOk result (λ all. vec_len all ≤ most) }
    ensures too_long { result ≡ Err ReadEnd.TooLong → (read : List ℕ) × (length read ≡ most + 1) × (S.left src.old ≡ before_giving read (S.left src.new)) }
    ensures fault { result ≡ Err ReadEnd.Fault → Rose (S.faults src.old) (S.faults src.new) }
    ensures fault_short { result ≡ Err ReadEnd.Fault → (read : List ℕ) × (length read ≤ most) × (S.left src.old ≡ before_giving read (S.left src.new)) }
    ensures no_memory { result ≡ Err ReadEnd.NoMemory → (read : List ℕ) × (length read ≤ most + 1) × (S.left src.old ≡ before_giving read (S.left src.new)) }
    ensures count { S.faults src.old ≤ S.faults src.new }
{
    let mut all = Vec::new(alloc);
    let mut buf = [0u8; PIECE];
    let limit = most as usize;
    while all.len() <= limit {
        let room = (limit + 1 - all.len()).min(PIECE);
        match src.take(&mut buf[..room]) {
            Err(Failed) => return Err(ReadEnd::Fault),
            Ok(0) => return Ok(all),
            Ok(count) => {
                if all.extend_from_slice(&buf[..count]).is_err() {
                    return Err(ReadEnd::NoMemory);
                }
            }
        }
    }
    Err(ReadEnd::TooLong)
}

/// Puts all the bytes, in order, and no empty piece. Where a call fails, those before it are put.
#[tactic(auto, using(crate::proofs::Give::put_more, crate::proofs::Give::put_nothing))]
pub fn write_all<K: Sink>(out: &mut K, bytes: &[u8]) -> Result<(), Failed>
    ensures ok { OnOk result (K.written out.new ≡ after_putting (K.written out.old) bytes.now) }
    ensures err { OnErr result ((n : ℕ) × (n < length bytes.now) × (K.written out.new ≡ after_putting (K.written out.old) (take n bytes.now))) }
    ensures cause { HasCause (K.faults out.old) (K.faults out.new) result }
{
    let mut at = 0;
    while at < bytes.len() {
        let (_, rest) = bytes.split_at(at);
        match out.put(rest) {
            Err(Failed) => return Err(Failed),
            Ok(count) => at += count,
        }
    }
    Ok(())
}
