ghost use Rattle.std.specs.Prelude.{◌≡◌, ℕ, ◌+◌, ◌<◌, ◌≤◌, ◌==◌, ◌&&◌, not, if◌then◌else◌, Some, length};
ghost use Rattle.step_core.specs.declared.limits.TheConstants.{MOST_PUBLICATIONS};
ghost use Rattle.step_core.specs.Maps.{times};
ghost use Rattle.shared_table.specs.Known.{IsSeen};

use crate::sizes::SizedView;
use atomic_table::Seat;
use std::marker::Model;

/// What one thread steps with: a seat of the table, whose view is what the thread knows of it.
#[derive(Drop)]
pub struct Pass {
    pub(crate) seat: Seat<u8, SizedView>,
    pub(crate) seen: u16,
    pub(crate) author: Option<u8>,
}

impl Model for Pass {
    ghost use Rattle.shared_table.specs.Known.{Known, IsInside, known_of};

    ghost Value = { Known };

    ghost view = { λ p. known_of p.seat.table_id p.seat.id p.seat.me.0 p.author };

    ghost invariant = { λ p. IsInside p.seat.me p.seen p.author };
}

impl Pass {
    /// The author that `open` gave to this pass. A pass that `note` made has none.
    pub fn author(&self) -> Option<u8>
        ensures author { result ≡ self.now.author }
        ensures owns { (a : ℕ) → result ≡ Some a → 0 < times a self.now.view.authors }
    {
        self.author
    }

    /// How many records of the log the pass has seen.
    pub fn seen(&self) -> u16
        ensures seen { result ≡ length self.now.view.log }
        ensures most { result ≤ MOST_PUBLICATIONS }
    {
        self.seen
    }

    /// What the pass knows was so in some good state of its table. Nothing is done.
    pub fn facts(&self)
        ensures { IsSeen (record { view = self.now.view; sizes = self.now.sizes }) }
    {
        let _ = &self.seat;
    }
}

/// How many records are seen, once the word `found` is seen at the log place k.
pub(crate) fn seen_after(seen: u16, k: u16, found: u64) -> u16
    requires { seen ≤ MOST_PUBLICATIONS }
    ensures { result ≡ (if (k == seen + 1) && not (found == 0) then k else seen) }
{
    if k == seen + 1 && found != 0 { k } else { seen }
}
