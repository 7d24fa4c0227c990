ghost use Rattle.std.specs.Prelude.{◌≡◌, ◌<◌, ◌≤◌};
ghost use Rattle.step_core.specs.Words.{id_of};
ghost use Rattle.step_core.specs.declared.limits.TheConstants.{MOST_PUBLICATIONS};
ghost use Rattle.memo.specs.Keys.{hashed, key_of, word_of_id};

use arith_word::Label;
use shared_table::Node;

/// The bit that every full word of a memo has.
const FULL: u64 = 1 << 63;

/// The unit of a key's version.
const VERSION: u64 = 1 << 32;

/// The number of the versions that a key can name.
const VERSIONS: u64 = 1 << 12;

/// The unit of a version in what decides where a path begins.
const HASHED_VERSION: u64 = 1 << 30;

/// The number of the values that an id word's lower bits have.
const IDS: u64 = 1 << 21;

/// The key of a memo: of a value's version and label.
pub fn key_word(version: u16, v: Label) -> u64
    requires { version ≤ MOST_PUBLICATIONS }
    ensures { result ≡ key_of version v.0 }
{
    FULL + (u64::from(version) * VERSION + u64::from(v.0))
}

/// What decides where the path of a key begins: its version and its label.
pub(crate) fn hashed(key: u64) -> u64
    ensures { result ≡ hashed key }
{
    key / VERSION % VERSIONS * HASHED_VERSION + key % VERSION
}

/// The word of an id.
pub(crate) fn id_word(n: Node) -> u64
    ensures { result ≡ word_of_id n.0 }
{
    FULL + (u64::from(n.0) + 1)
}

/// The node of an id word.
pub(crate) fn node_of(word: u64) -> Node
    ensures { result.0 ≡ id_of word }
{
    Node((word % IDS).saturating_sub(1) as u32)
}
