ghost use Rattle.std.specs.Prelude.{◌<◌, ◌+◌, length};
ghost use Rattle.step_core.specs.Maps.{times};
ghost use Rattle.step_core.specs.Words.{author_of};
ghost use Rattle.shared_table.specs.Known.{IsPassOf, IsSamePass};
ghost use Rattle.shared_table.specs.Puts.{PutsEnd};
ghost use Rattle.version_log.specs.Fronts.{IsNextRecord, IsPublished};

use shared_table::{Pass, Put, Shared};
use step_core::MemoMeaning;

/// Publishes a record of one of the pass's authors as the next version. Answers the version, or that
/// the log is full.
pub fn publish<M: MemoMeaning>(s: &Shared<M>, p: &mut Pass, word: u64) -> Put
    requires table { IsPassOf s.now.table.shared.table_id s.now.sizes p.old }
    requires word { IsNextRecord p.old.view word }
    requires author { 0 < times (author_of word) p.old.view.authors }
    ensures same { IsSamePass p.old p.new }
    ensures events { PutsEnd p.old.view p.new.view (length p.old.view.log + 1) word result }
    ensures published { IsPublished word p.new.view result }
{
    let from = p.seen() + 1;
    s.put_log(p, from, word)
}
