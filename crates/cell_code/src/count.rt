ghost use Rattle.std.specs.Prelude.{◌≡◌, ◌-◌, ◌^◌, min};
ghost use Rattle.cell_code.specs.Count.{IsSmall, cell_count, cells_in};
ghost use Rattle.scev_tree.specs.Tree.{polynomial_of, polynomials};
ghost use Rattle.step_core.specs.Parts.{places_part, tree_part};

use scev_tree::{Expr, Tree};

/// The greatest number that is stored in one cell.
const MOST_SMALL: u64 = (1 << 56) - 1;

/// The number of cells that a reading of the expression visits, each as often as it is visited; the
/// greatest u32 where it is more, which no expression within the limits of an analysis has.
pub fn cells_of(e: &Expr) -> u32
    ensures count { result ≡ min (cell_count e.now.w (polynomial_of e.now.tree)) (2 ^ 32 - 1) }
    ensures exact { IsSmall (polynomial_of e.now.tree)
        → result ≡ cell_count e.now.w (polynomial_of e.now.tree) }
{
    cells_of_tree(&e.tree).saturating_add(1)
}

#[cycle(counting)]
fn cells_of_tree(t: &Tree) -> u32
    ensures { result ≡ min (cells_in (tree_part (polynomial_of t.now))) (2 ^ 32 - 1) }
{
    match t {
        Tree::Num(number) => { if *number <= MOST_SMALL { 1 } else { 2 } }
        Tree::Ext { ops, .. } => cells_of_places(ops.as_slice()).saturating_add(1),
    }
}

/// Of a list of places and the trees in them. Each place takes a cell of its own; the list without
/// places, which no expression has, would be the cell of the number 0.
#[cycle(counting)]
fn cells_of_places(ts: &[Tree]) -> u32
    ensures { result ≡ min (cells_in (places_part (polynomials ts.now))) (2 ^ 32 - 1) }
{
    let mut count = 0u32;
    for t in ts {
        count = count.saturating_add(cells_of_tree(t)).saturating_add(1);
    }
    count.max(1)
}
