use crate::sizes::{SizedView, Sizes};
use atomic_table::TableRule;
use std::alloc::Global;
use std::marker::PhantomData;
use step_core::MemoMeaning;

/// What a table is told when it is opened: the text, the number of authors, and its sizes.
#[derive(Drop)]
pub struct About {
    pub base: Vec<u8, Global>,
    pub authors: u8,
    pub sizes: Sizes,
}

/// The rule of a table: its words and all views are a good state.
pub struct TableOf<M> {
    of: PhantomData<M>,
}

impl<M: MemoMeaning> TableRule<u8, SizedView, About> for TableOf<M> {
    ghost use Rattle.shared_table.specs.Rule.{Held, first};

    ghost holds = { Held M.meaning };

    ghost first = { first };
}
