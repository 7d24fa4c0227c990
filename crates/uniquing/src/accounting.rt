ghost use Rattle.uniquing.specs.Closing.{Closes, Counts, Forks, Joins, Looks, Others, Starts};

use step_core::MemoMeaning;

/// What is in the cells when a table is closed: the parts that were asked for, or as many of them
/// as there are cells. There is nothing to do: the contract is the law, over what passes asked for.
pub fn cells_are_asked_for<M: MemoMeaning>()
    ensures starts { Starts }
    ensures others { Others M.meaning }
    ensures looks { Looks M.meaning }
    ensures forks { Forks }
    ensures joins { Joins }
    ensures closes { Closes M.meaning }
    ensures counts { Counts M.meaning }
{}
