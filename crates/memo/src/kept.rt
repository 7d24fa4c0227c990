ghost use Rattle.std.specs.Prelude.{◌<◌, ◌≤◌, length};
ghost use Rattle.step_core.specs.Good.{IsKeyAt};
ghost use Rattle.step_core.specs.Maps.{Has};
ghost use Rattle.step_core.specs.Words.{version_of};
ghost use Rattle.shared_table.specs.Known.{IsPassOf, IsSamePass};
ghost use Rattle.memo.specs.Keys.{GainsMemos, key_of};
ghost use Rattle.memo.specs.Keeping.{KeepsBy, KeepsHereBy, MayKeep, StandsKept, VisitsBy};

use crate::key::{hashed, id_word, key_word, node_of};
use crate::met::PATH;
use arith_word::Label;
use shared_table::{Kept, Node, Pass, Shared};
use step_core::{MemoMeaning, start};

/// What keeping a node gives.
#[derive(Clone, Copy, Debug, PartialEq, Eq)]
pub enum KeptAs {
    /// This node is kept already.
    There(Node),
    /// All places of the key's path have other keys.
    Crowded,
    /// The node was kept at this place.
    Kept(Kept),
}

/// Loads a key, and tries to put one where the place is empty. Answers the key that the place then
/// has.
fn visit_key<M: MemoMeaning>(s: &Shared<M>, p: &mut Pass, at: u32, key: u64) -> u64
    requires table { IsPassOf s.now.table.shared.table_id s.now.sizes p.old }
    requires place { at < s.now.sizes.memo }
    requires key { IsKeyAt M.meaning p.old.view.base p.old.view.log key }
    ensures same { IsSamePass p.old p.new }
    ensures grows { GainsMemos p.old.view p.new.view }
    ensures has { Has p.new.view.keys at result }
    ensures events { VisitsBy M.meaning p.old.view at key result p.new.view }
{
    let found = s.load_key(p, at);
    if found != 0 {
        return found;
    }
    match s.put_key(p, at, key) {
        Kept::At(_) => key,
        Kept::Lost(other) => other,
    }
}

/// Keeps the node at the key's own place, where no other is kept.
fn keep_here<M: MemoMeaning>(s: &Shared<M>, p: &mut Pass, at: u32, key: u64, n: Node) -> KeptAs
    requires table { IsPassOf s.now.table.shared.table_id s.now.sizes p.old }
    requires place { at < s.now.sizes.memo }
    requires key { Has p.old.view.keys at key }
    requires version { version_of key ≤ length p.old.view.log }
    requires node { MayKeep M.meaning p.old.view key n.0 }
    ensures same { IsSamePass p.old p.new }
    ensures grows { GainsMemos p.old.view p.new.view }
    ensures events { KeepsHereBy M.meaning p.old.view at n.0 result p.new.view }
    ensures stands { StandsKept M.meaning p.new.view key result }
{
    p.facts();
    let found = s.load_id(p, at);
    if found != 0 {
        return KeptAs::There(node_of(found));
    }
    match s.put_id(p, at, id_word(n)) {
        Kept::At(place) => KeptAs::Kept(Kept::At(place)),
        Kept::Lost(other) => KeptAs::There(node_of(other)),
    }
}

/// Keeps a node under a version, which the pass has seen, and the label of a value of that version.
/// The node stands for what the key says. It is kept at the key's own place, which is the first
/// empty one of its path where the key was not put before.
pub fn keep<M: MemoMeaning>(s: &Shared<M>, p: &mut Pass, version: u16, v: Label, n: Node) -> KeptAs
    requires table { IsPassOf s.now.table.shared.table_id s.now.sizes p.old }
    requires key { IsKeyAt M.meaning p.old.view.base p.old.view.log (key_of version v.0) }
    requires node { MayKeep M.meaning p.old.view (key_of version v.0) n.0 }
    ensures same { IsSamePass p.old p.new }
    ensures grows { GainsMemos p.old.view p.new.view }
    ensures events { KeepsBy M.meaning s.now.sizes p.old.view (key_of version v.0) n.0 result
        p.new.view }
    ensures stands { StandsKept M.meaning p.new.view (key_of version v.0) result }
{
    p.facts();
    let key = key_word(version, v);
    let size = s.sizes().memo;
    let first = start(hashed(key), size);
    for k in 0..PATH {
        let at = (first + k) % size;
        if visit_key(s, p, at, key) == key {
            return keep_here(s, p, at, key, n);
        }
    }
    KeptAs::Crowded
}
