ghost use Rattle.std.specs.Prelude.{◌≡◌, ℕ, ◌+◌, ◌*◌, ◌^◌, ◌<◌, IfOk};
ghost use Rattle.cell_code.specs.Count.{cell_count};
ghost use Rattle.cell_code.specs.declared.form.CellForm.{CellForm};
ghost use Rattle.scev_tree.specs.Polynomial.{Polynomial, Polynomials};
ghost use Rattle.scev_tree.specs.Tree.{polynomial_of};
ghost use Rattle.shared_table.specs.CellPuts.{GainsCells};
ghost use Rattle.shared_table.specs.Known.{IsPassOf, IsSamePass};
ghost use Rattle.uniquing.specs.Nodes.{IsNode, IsNodeOf};
ghost use Rattle.uniquing.specs.Reads.{ArePlacesAt, HasCell, IsLowHalf, IsTreeAt, PlacesRead, Reads, TreeRead};

use cell_code::{CellForm, read_cell};
use scev_tree::{Expr, Tree};
use shared_table::{Node, Pass, Shared};
use sqlite_items::Items;
use std::alloc::{AllocError, Global};
use step_core::MemoMeaning;

/// The unit of a large number's high half.
const HIGH: u64 = 1 << 32;

/// What a cell says.
fn load_form<M: MemoMeaning>(s: &Shared<M>, p: &mut Pass, id: u32) -> CellForm
    requires table { IsPassOf s.now.table.shared.table_id s.now.sizes p.old }
    requires form { (form : CellForm) × HasCell p.old.view id form }
    ensures same { IsSamePass p.old p.new }
    ensures form { (form : CellForm) → HasCell p.old.view id form → result ≡ form }
    ensures events { Reads M.meaning p.old.view (λ n. n ≡ 1) p.new.view }
{
    p.facts();
    match read_cell(s.load_cell(p, id)) {
        Some(form) => form,
        None => unreachable!(),
    }
}

/// A number of 2^56 or more, from the id of its low half and its high half.
fn read_large<M: MemoMeaning>(s: &Shared<M>, p: &mut Pass, low: u32, high: u32) -> u64
    requires table { IsPassOf s.now.table.shared.table_id s.now.sizes p.old }
    requires low { (n : ℕ) × IsLowHalf p.old.view low n }
    ensures same { IsSamePass p.old p.new }
    ensures value { (n : ℕ) → IsLowHalf p.old.view low n → result ≡ high * 2 ^ 32 + n }
    ensures events { Reads M.meaning p.old.view (λ n. n ≡ 1) p.new.view }
{
    match load_form(s, p, low) {
        CellForm::Small(n) => u64::from(high) * HIGH + n,
        _ => unreachable!(),
    }
}

/// The tree of a cell, which has at most `depth` cells above one another.
#[cycle(reading)]
fn read_tree<M: MemoMeaning>(
    alloc: Global,
    s: &Shared<M>,
    p: &mut Pass,
    id: u32,
    depth: u32,
) -> Result<Tree, AllocError>
    requires table { IsPassOf s.now.table.shared.table_id s.now.sizes p.old }
    requires tree { (q : Polynomial) × IsTreeAt p.old.view id depth q }
    ensures same { IsSamePass p.old p.new }
    ensures read { TreeRead M.meaning p.old.view id depth result p.new.view }
{
    match load_form(s, p, id) {
        CellForm::Small(n) => Ok(Tree::Num(n)),
        CellForm::Large(low, high) => Ok(Tree::Num(read_large(s, p, low, high))),
        CellForm::Ext(list, var, counter) => {
            let mut ops = Vec::new(alloc);
            read_places(alloc, s, p, list, depth - 1, &mut ops)?;
            let ops = Items::from_vec(ops);
            Ok(Tree::Ext { counter, var, ops })
        }
        _ => unreachable!(),
    }
}

/// Adds the trees of a list of places.
#[cycle(reading)]
fn read_places<M: MemoMeaning>(
    alloc: Global,
    s: &Shared<M>,
    p: &mut Pass,
    id: u32,
    depth: u32,
    out: &mut Vec<Tree>,
) -> Result<(), AllocError>
    requires table { IsPassOf s.now.table.shared.table_id s.now.sizes p.old }
    requires places { (qs : Polynomials) × ArePlacesAt p.old.view id depth qs }
    ensures same { IsSamePass p.old p.new }
    ensures read { PlacesRead M.meaning p.old.view id depth out.old.items result out.new.items
        p.new.view }
{
    match load_form(s, p, id) {
        CellForm::Last(head) => {
            let last = read_tree(alloc, s, p, head, depth - 1)?;
            out.push(last)?;
            Ok(())
        }
        CellForm::More(head, rest) => {
            let first = read_tree(alloc, s, p, head, depth - 1)?;
            out.push(first)?;
            read_places(alloc, s, p, rest, depth - 1, out)
        }
        _ => unreachable!(),
    }
}

/// The expression of a node. It loads the cells of the expression, each as often as it is visited,
/// and does nothing else on the table.
pub fn read<M: MemoMeaning>(
    alloc: Global,
    s: &Shared<M>,
    p: &mut Pass,
    n: Node,
) -> Result<Expr, AllocError>
    requires table { IsPassOf s.now.table.shared.table_id s.now.sizes p.old }
    requires node { IsNode p.old.view n }
    ensures same { IsSamePass p.old p.new }
    ensures grows { GainsCells p.old.view p.new.view }
    ensures node { IfOk result (λ e. IsNodeOf p.old.view n e.w (polynomial_of e.tree)) }
    ensures value { IfOk result (λ e. (w : ℕ) (q : Polynomial) → IsNodeOf p.old.view n w q
        → (e.w ≡ w) × (polynomial_of e.tree ≡ q)) }
    ensures events { Reads M.meaning p.old.view
        (λ k. IfOk result (λ e. k ≡ cell_count e.w (polynomial_of e.tree))) p.new.view }
{
    p.facts();
    match load_form(s, p, n.0) {
        CellForm::Root(w, id) => {
            let tree = read_tree(alloc, s, p, id, s.sizes().cells)?;
            Ok(Expr { w, tree })
        }
        _ => unreachable!(),
    }
}
