ghost use Rattle.std.specs.Prelude.{◌≤◌, length};
ghost use Rattle.shared_table.specs.Known.{IsPassOf, IsSamePass};
ghost use Rattle.memo.specs.Keys.{GainsMemos, key_of};
ghost use Rattle.memo.specs.Seeking.{FindsBy, IsFoundBy, StandsFound};

use crate::key::{key_word, node_of};
use crate::met::{Met, seek};
use arith_word::Label;
use shared_table::{Node, Pass, Shared};
use step_core::MemoMeaning;

/// What is found under a key.
#[derive(Clone, Copy, Debug, PartialEq, Eq)]
pub enum Found {
    /// The node that is kept there.
    Node(Node),
    /// No node was found.
    Absent,
}

/// The node of what was met.
fn found_by(met: Met) -> Found
    ensures { IsFoundBy met result }
{
    match met {
        Met::Own(_, word) if word != 0 => Found::Node(node_of(word)),
        _ => Found::Absent,
    }
}

/// Looks for the node that is kept for a value: by the value's version, which the pass has seen,
/// and its label.
pub fn find<M: MemoMeaning>(s: &Shared<M>, p: &mut Pass, version: u16, v: Label) -> Found
    requires table { IsPassOf s.now.table.shared.table_id s.now.sizes p.old }
    requires version { version ≤ length p.old.view.log }
    ensures same { IsSamePass p.old p.new }
    ensures grows { GainsMemos p.old.view p.new.view }
    ensures events { FindsBy M.meaning s.now.sizes p.old.view (key_of version v.0) result
        p.new.view }
    ensures stands { StandsFound M.meaning p.new.view (key_of version v.0) result }
{
    p.facts();
    found_by(seek(s, p, key_word(version, v)))
}
