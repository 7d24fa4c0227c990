ghost use Rattle.std.specs.Prelude.{◌≡◌, None, if◌then◌else◌, nat_lt};
ghost use Rattle.step_core.specs.Views.{noted, noting};
ghost use Rattle.shared_table.specs.Known.{IsPassOf, IsSamePass};
ghost use Rattle.shared_table.specs.Steps.{Meets};

use crate::pass::{Pass, seen_after};
use crate::play::{Fork, LoadLog, Unite};
use crate::shared::Shared;
use step_core::MemoMeaning;

impl<M: MemoMeaning> Shared<M> {
    /// Makes a note: a pass that has seen what this one has, and has no author.
    pub fn note(&self, p: &mut Pass) -> Pass
        requires table { IsPassOf self.now.table.shared.table_id self.now.sizes p.old }
        ensures same { IsSamePass p.old p.new }
        ensures event { p.new.view ≡ noting p.old.view }
        ensures note { IsPassOf self.now.table.shared.table_id self.now.sizes result }
        ensures noted { (result.view ≡ noted p.old.view) × (result.author ≡ None) }
    {
        let seat = self.table.shared.split_seat::<Fork>(&mut p.seat);
        Pass {
            seat,
            seen: p.seen,
            author: None,
        }
    }

    /// Joins another pass to this one, which has then seen what both have, and loads the first log
    /// place.
    pub fn meet(&self, p: &mut Pass, other: Pass)
        requires table { IsPassOf self.now.table.shared.table_id self.now.sizes p.old }
        requires other { IsPassOf self.now.table.shared.table_id self.now.sizes other }
        ensures same { IsSamePass p.old p.new }
        ensures events { Meets p.old.view other.view p.new.view }
    {
        let Pass { seat, seen, .. } = other;
        self.table.shared.join_seat::<Unite>(&mut p.seat, seat);
        let found = self.table.shared.load::<LoadLog>(&mut p.seat, 1);
        let front = later(p.seen, seen);
        p.seen = seen_after(front, 1, found);
    }
}

/// The later of two fronts.
fn later(a: u16, b: u16) -> u16
    ensures { result ≡ (if nat_lt a b then b else a) }
{
    if a < b { b } else { a }
}
