ghost use Rattle.std.specs.Prelude.{◌≡◌, ◌+◌, ◌<◌, length, OnOk};
ghost use Rattle.arith_word.specs.Labels.{label_at};
ghost use Rattle.mlir_ir.specs.Rules.{arg_types};
ghost use Rattle.fresh_scev.specs.Facts.{AreOwn};
ghost use Rattle.fresh_scev.specs.Heads.{AreArguments, AreReady, IsCounter};
ghost use Rattle.fresh_scev.specs.Settled.{Settles};
ghost use Rattle.fresh_scev.specs.Table.{facts_of, next_label, AreKnown, Grows, HasRoom};
ghost use Rattle.fresh_scev.specs.Walked.{Says};

use crate::fact::Fact;
use crate::given::define_given;
use crate::heads::Arguments;
use crate::owns::define_own;
use crate::table::Table;
use mlir_ir::IrType;
use std::alloc::AllocError;
use trip_count::{Turns, Why};

/// Begins a loop with its counter, whose trip count isn't known yet.
#[tactic(auto, using(crate::proofs::OpenedLoops::open_grows, crate::proofs::OpenedLoops::open_counter))]
pub(crate) fn open_loop(t: &mut Table) -> Result<(), AllocError>
    requires room { HasRoom t.old 1 }
    requires known { AreKnown (facts_of t.old) }
    ensures grows { OnOk result (Grows t.old t.new 1) }
    ensures counter { OnOk result (IsCounter (facts_of t.new) (next_label t.old)) }
{
    t.push(Fact::Loop(Turns::Unknown(Why::NotACompare)))
}

/// Settles the trip count of the loop whose counter has that index in the item under way.
#[tactic(auto, using(crate::proofs::CutTables::set_settles))]
pub(crate) fn settle(t: &mut Table, at: usize, turns: Turns)
    requires room { HasRoom t.old 0 }
    requires known { AreKnown (facts_of t.old) }
    requires index { at < length t.old.here.items }
    requires counter { IsCounter (facts_of t.old) (label_at t.old.func (length t.old.items) at) }
    ensures { Settles t.old t.new (label_at t.old.func (length t.old.items) at) turns }
{
    t.here[at] = Fact::Loop(turns);
}
