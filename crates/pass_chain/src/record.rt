ghost use Rattle.std.specs.Prelude.{◌≡◌, ℕ, ◌≤◌, ◌<◌, ◌↔◌, IsTrue, MatchOption};
ghost use Rattle.pass_chain.specs.Records as spec;
ghost use Rattle.pass_chain.specs.Records.{HasParam, IsRecord, IsWordOf};
ghost use Rattle.step_core.specs.Words.{IsLogWord};

use crate::pass_kind::PassKind;
use arith_word::Label;

/// A record of the log: who did which pass to which loop of which version.
#[derive(Clone, Copy, Debug)]
pub struct Rec {
    pub author: u8,
    /// The version to which the pass was done.
    pub parent: u16,
    pub kind: PassKind,
    /// The label of the loop.
    pub target: Label,
    /// For unrolling the factor less 1, else 0.
    pub param: u8,
}

/// What a full word has besides its fields.
const FULL: u64 = 1 << 63;

const PARAM_PLACE: u64 = 1 << 3;

const TARGET_PLACE: u64 = 1 << 9;

const PARENT_PLACE: u64 = 1 << 41;

const AUTHOR_PLACE: u64 = 1 << 53;

const MARK_PLACE: u64 = 1 << 57;

/// How many kinds and other fields there is room for.
const KIND_ROOM: u64 = 1 << 3;

const PARAM_ROOM: u64 = 1 << 6;

const TARGET_ROOM: u64 = 1 << 32;

const PARENT_ROOM: u64 = 1 << 12;

const AUTHOR_ROOM: u64 = 1 << 4;

/// The greatest factor less 1.
const MOST_PARAM: u64 = 31;

/// The number of the kind in a word.
fn kind_number(kind: PassKind) -> u64
    ensures { result ≡ spec.kind_number kind }
{
    match kind {
        PassKind::Unroll => 0,
        PassKind::UnrollFull => 1,
        PassKind::Peel => 2,
        PassKind::ExitValues => 3,
        PassKind::Reduce => 4,
    }
}

/// The kind with that number in a word.
fn kind_at(number: u64) -> Option<PassKind>
    ensures { MatchOption result (4 < number) (λ kind. number ≡ spec.kind_number kind) }
{
    match number {
        0 => Some(PassKind::Unroll),
        1 => Some(PassKind::UnrollFull),
        2 => Some(PassKind::Peel),
        3 => Some(PassKind::ExitValues),
        4 => Some(PassKind::Reduce),
        _ => None,
    }
}

/// The word of a record.
pub fn rec_word(r: Rec) -> u64
    requires { IsRecord r }
    ensures { IsWordOf r result }
{
    FULL + u64::from(r.author) * AUTHOR_PLACE
        + u64::from(r.parent) * PARENT_PLACE
        + u64::from(r.target.0) * TARGET_PLACE
        + u64::from(r.param) * PARAM_PLACE
        + kind_number(r.kind)
}

/// Whether a pass of that kind has that number besides.
fn has_param(kind: PassKind, param: u64) -> bool
    ensures { IsTrue result ↔ HasParam kind param }
{
    match kind {
        PassKind::Unroll => 1 <= param && param <= MOST_PARAM,
        _ => param == 0,
    }
}

/// The record of the word; `None` exactly where it is no word of a record.
pub fn read_rec(w: u64) -> Option<Rec>
    ensures { MatchOption result (IsLogWord w → ⊥) (λ r. IsRecord r × IsWordOf r w) }
{
    if w / MARK_PLACE != FULL / MARK_PLACE {
        return None;
    }
    let Some(kind) = kind_at(w % KIND_ROOM) else {
        return None;
    };
    let param = w / PARAM_PLACE % PARAM_ROOM;
    if !has_param(kind, param) {
        return None;
    }
    Some(Rec {
        author: (w / AUTHOR_PLACE % AUTHOR_ROOM) as u8,
        parent: (w / PARENT_PLACE % PARENT_ROOM) as u16,
        kind,
        target: Label((w / TARGET_PLACE % TARGET_ROOM) as u32),
        param: param as u8,
    })
}
