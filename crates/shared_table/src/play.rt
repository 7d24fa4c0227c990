//! What each step on the table tells.
use crate::sizes::SizedView;
use atomic_table::{Join, Play, Split};
use std::marker::PhantomData;
use step_core::MemoMeaning;

/// A load of a log place.
pub struct LoadLog;

impl Play<u8, SizedView> for LoadLog {
    ghost use Rattle.shared_table.specs.Plays.{loaded_log};

    ghost then = { loaded_log };
}

/// A load of a memo's key.
pub struct LoadKey;

impl Play<u8, SizedView> for LoadKey {
    ghost use Rattle.shared_table.specs.Plays.{loaded_key};

    ghost then = { loaded_key };
}

/// A load of a memo's id.
pub struct LoadId<M> {
    of: PhantomData<M>,
}

impl<M: MemoMeaning> Play<u8, SizedView> for LoadId<M> {
    ghost use Rattle.shared_table.specs.Plays.{loaded_id};

    ghost then = { loaded_id M.meaning };
}

/// A load of a cell.
pub struct LoadCell;

impl Play<u8, SizedView> for LoadCell {
    ghost use Rattle.shared_table.specs.Plays.{loaded_cell};

    ghost then = { loaded_cell };
}

/// One author goes to a new view.
pub(crate) struct Deal;

impl Split<SizedView> for Deal {
    ghost use Rattle.shared_table.specs.Rule.{sized_dealer, sized_dealt};

    ghost left = { sized_dealer };

    ghost right = { sized_dealt };
}

/// A put of a record into the log.
pub struct PutLog;

impl Play<u8, SizedView> for PutLog {
    ghost use Rattle.shared_table.specs.Plays.{tried_log_place};

    ghost then = { tried_log_place };
}

/// A put of a cell.
pub struct PutCell;

impl Play<u8, SizedView> for PutCell {
    ghost use Rattle.shared_table.specs.Plays.{tried_cell_place};

    ghost then = { tried_cell_place };
}

/// A put of a memo's key.
pub struct PutKey;

impl Play<u8, SizedView> for PutKey {
    ghost use Rattle.shared_table.specs.Plays.{tried_key_place};

    ghost then = { tried_key_place };
}

/// A put of a memo's id.
pub struct PutId<M> {
    of: PhantomData<M>,
}

impl<M: MemoMeaning> Play<u8, SizedView> for PutId<M> {
    ghost use Rattle.shared_table.specs.Plays.{tried_id_place};

    ghost then = { tried_id_place M.meaning };
}

/// A clearing of a memo's id.
pub struct ClearId;

impl Play<u8, SizedView> for ClearId {
    ghost use Rattle.shared_table.specs.Plays.{cleared_id_place};

    ghost then = { cleared_id_place };
}

/// A fork: what was seen goes to a new view too.
pub(crate) struct Fork;

impl Split<SizedView> for Fork {
    ghost use Rattle.shared_table.specs.Rule.{sized_noted, sized_noting};

    ghost left = { sized_noting };

    ghost right = { sized_noted };
}

/// A join: what both have seen goes to one view, and the other is spent.
pub(crate) struct Unite;

impl Join<SizedView> for Unite {
    ghost use Rattle.shared_table.specs.Rule.{sized_met, sized_spent};

    ghost both = { sized_met };

    ghost spent = { sized_spent };
}
