ghost use Rattle.std.specs.Prelude.{◌≡◌, ◌+◌, ◌*◌, ◌%◌, ◌<◌, ◌^◌, false};
ghost use Rattle.arith_word.specs.Operation.{holds};
ghost use Rattle.exit_solver.specs.Exit.{IsLeast};

use crate::arc::exit_arc;
use crate::hit::{Hit, first_hit};
use arith_word::{Pred, Width, sub};

/// The least iteration `n` at which `pred(a + b * n, c)` is false, over all `n` and with wraps.
pub fn least_exit(w: Width, pred: Pred, a: u64, b: u64, c: u64) -> Hit
    requires start { a < 2 ^ w }
    requires step { b < 2 ^ w }
    requires bound { c < 2 ^ w }
    ensures { IsLeast (λ n. holds pred w ((a + b * n) % 2 ^ w) c ≡ false) result }
{
    let arc = exit_arc(pred, c, w);
    first_hit(w, sub(w, a, arc.from), b, arc.len)
}
