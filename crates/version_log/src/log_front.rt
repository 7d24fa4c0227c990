ghost use Rattle.std.specs.Prelude.{◌≡◌, length};
ghost use Rattle.shared_table.specs.Known.{IsPassOf, IsSamePass};
ghost use Rattle.version_log.specs.Fronts.{MovesFront};

use shared_table::{Pass, Shared};
use step_core::{MOST_PUBLICATIONS, MemoMeaning};

/// Loads the log from the pass's front on, up to an empty place or the end. Answers the new front,
/// which is the number of records seen and the greatest version.
pub fn front<M: MemoMeaning>(s: &Shared<M>, p: &mut Pass) -> u16
    requires table { IsPassOf s.now.table.shared.table_id s.now.sizes p.old }
    ensures same { IsSamePass p.old p.new }
    ensures front { result ≡ length p.new.view.log }
    ensures events { MovesFront M.meaning p.old.view p.new.view }
{
    let mut k = p.seen() + 1;
    while k <= MOST_PUBLICATIONS {
        if s.load_log(p, k) == 0 {
            return k - 1;
        }
        k += 1;
    }
    MOST_PUBLICATIONS
}
