ghost use Rattle.std.specs.Prelude.{◌≤◌, length};
ghost use Rattle.shared_table.specs.Known.{IsPassOf, IsSamePass};
ghost use Rattle.memo.specs.Forgetting.{ClearsBy, ForgetsBy, ForgetsRange, label_count};
ghost use Rattle.memo.specs.Keys.{GainsMemos, key_of};
ghost use Rattle.memo.specs.Seeking.{IsMet};

use crate::key::key_word;
use crate::met::{Met, seek};
use arith_word::Label;
use shared_table::{Pass, Shared};
use step_core::MemoMeaning;

/// Clears the id word that was met beside a key.
fn clear<M: MemoMeaning>(s: &Shared<M>, p: &mut Pass, met: Met)
    requires table { IsPassOf s.now.table.shared.table_id s.now.sizes p.old }
    requires met { IsMet s.now.sizes.memo met }
    ensures same { IsSamePass p.old p.new }
    ensures grows { GainsMemos p.old.view p.new.view }
    ensures events { ClearsBy M.meaning p.old.view met p.new.view }
{
    if let Met::Own(at, word) = met {
        if word != 0 {
            s.clear_id(p, at, word);
        }
    }
}

/// Clears the id that is kept under a key. The key stays.
fn forget<M: MemoMeaning>(s: &Shared<M>, p: &mut Pass, version: u16, v: Label)
    requires table { IsPassOf s.now.table.shared.table_id s.now.sizes p.old }
    requires version { version ≤ length p.old.view.log }
    ensures same { IsSamePass p.old p.new }
    ensures grows { GainsMemos p.old.view p.new.view }
    ensures events { ForgetsBy M.meaning s.now.sizes p.old.view (key_of version v.0) p.new.view }
{
    p.facts();
    let key = key_word(version, v);
    let met = seek(s, p, key);
    clear(s, p, met);
}

/// Forgets what is kept for the labels from `from` to `to` of a version, one after another.
pub fn forget_range<M: MemoMeaning>(
    s: &Shared<M>,
    p: &mut Pass,
    version: u16,
    from: Label,
    to: Label,
)
    requires table { IsPassOf s.now.table.shared.table_id s.now.sizes p.old }
    requires version { version ≤ length p.old.view.log }
    ensures same { IsSamePass p.old p.new }
    ensures grows { GainsMemos p.old.view p.new.view }
    ensures events { ForgetsRange M.meaning s.now.sizes p.old.view version from.0
        (label_count from.0 to.0) p.new.view }
{
    let first = u64::from(from.0);
    let count = (u64::from(to.0) + 1).saturating_sub(first);
    for k in 0..count {
        forget(s, p, version, Label((first + k) as u32));
    }
}
