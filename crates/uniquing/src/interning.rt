ghost use Rattle.std.specs.Prelude.{◌≡◌, ℕ, ◌^◌, ◌<◌, ◌≤◌, ◌++◌, List, [], ◌∷◌, IfOk, OnOk, OnErr, length};
ghost use Rattle.cell_code.specs.declared.form.CellForm.{CellForm};
ghost use Rattle.cell_code.specs.Forms.{IsWithinBits, word_of};
ghost use Rattle.scev_tree.specs.Polynomial.{AreCanonical, IsCanonical, Under};
ghost use Rattle.scev_tree.specs.Tree.{polynomial_of, polynomials};
ghost use Rattle.step_core.specs.Cells.{WordStands};
ghost use Rattle.step_core.specs.Parts.{IsPlaces, IsTree, Part, number_part, places_part, tree_part};
ghost use Rattle.shared_table.specs.CellPuts.{GainsCells, IsCellWord};
ghost use Rattle.shared_table.specs.Known.{IsPassOf, IsSamePass};
ghost use Rattle.uniquing.specs.Closing.{Asked, IsHistory, asked_of};
ghost use Rattle.uniquing.specs.Interned.{Interned, InternsBy, Lacks};
ghost use Rattle.uniquing.specs.Nodes.{AllStand, IsNodeOf, part_of};

use arith_word::Label;
use cell_code::{CellForm, cell_word};
use scev_tree::{Expr, Tree};
use shared_table::{CellPut, Node, Pass, Shared};
use step_core::MemoMeaning;

/// No cell is empty, and a part of the expression has none.
#[derive(Clone, Copy, Debug, PartialEq, Eq)]
pub struct CellsFull;

/// The greatest number that is stored in one cell.
const MOST_SMALL: u64 = (1 << 56) - 1;

/// The unit of a large number's high half.
const HIGH: u64 = 1 << 32;

/// The cell of a form, which is put where there is none.
fn put_part<M: MemoMeaning>(s: &Shared<M>, p: &mut Pass, form: &CellForm) -> Result<u32, CellsFull>
    requires table { IsPassOf s.now.table.shared.table_id s.now.sizes p.old }
    requires author { 0 < length p.old.view.authors }
    requires bits { IsWithinBits form.now }
    requires word { IsCellWord p.old.view (word_of form.now) }
    ensures same { IsSamePass p.old p.new }
    ensures interned { (part : Part) → WordStands p.old.view.cells (word_of form.now) part
        → Interned M.meaning s.now.sizes p.old.view part result p.new.view }
    ensures id { IfOk result (λ id. id < 2 ^ 20) }
    ensures author { 0 < length p.new.view.authors }
{
    let put = s.put_cell(p, cell_word(form));
    p.facts();
    match put {
        CellPut::Home(id) => Ok(id),
        CellPut::Full => Err(CellsFull),
    }
}

fn intern_number<M: MemoMeaning>(s: &Shared<M>, p: &mut Pass, n: u64) -> Result<u32, CellsFull>
    requires table { IsPassOf s.now.table.shared.table_id s.now.sizes p.old }
    requires author { 0 < length p.old.view.authors }
    ensures same { IsSamePass p.old p.new }
    ensures interned { Interned M.meaning s.now.sizes p.old.view (number_part n) result p.new.view }
    ensures id { IfOk result (λ id. id < 2 ^ 20) }
    ensures author { 0 < length p.new.view.authors }
    ensures kind { IsTree (number_part n) }
{
    if n <= MOST_SMALL {
        return put_part(s, p, &CellForm::Small(n));
    }
    let low = put_part(s, p, &CellForm::Small(n % HIGH))?;
    put_part(s, p, &CellForm::Large(low, (n / HIGH) as u32))
}

#[cycle(interning)]
fn intern_tree<M: MemoMeaning>(s: &Shared<M>, p: &mut Pass, t: &Tree) -> Result<u32, CellsFull>
    requires table { IsPassOf s.now.table.shared.table_id s.now.sizes p.old }
    requires author { 0 < length p.old.view.authors }
    requires tree { (modulus : ℕ) × IsCanonical modulus (polynomial_of t.now) }
    ensures same { IsSamePass p.old p.new }
    ensures interned { Interned M.meaning s.now.sizes p.old.view
        (tree_part (polynomial_of t.now)) result p.new.view }
    ensures id { IfOk result (λ id. id < 2 ^ 20) }
    ensures author { 0 < length p.new.view.authors }
    ensures kind { OnOk result (IsTree (tree_part (polynomial_of t.now))) }
    ensures labels { OnOk result (Under (polynomial_of t.now) (2 ^ 33)) }
{
    match t {
        Tree::Num(v) => intern_number(s, p, *v),
        Tree::Ext { counter, var, ops } => {
            let list = intern_places(s, p, ops.as_slice())?;
            let form = ext_form(list, *var, *counter);
            put_part(s, p, &form)
        }
    }
}

/// The form of a polynomial in a variable, from the id of the list of its places.
fn ext_form(list: u32, var: Label, counter: bool) -> CellForm
    requires { list < 2 ^ 20 }
    ensures form { result ≡ CellForm.Ext list var counter }
    ensures bits { IsWithinBits result }
{
    CellForm::Ext(list, var, counter)
}

/// Interns a list of places. The tree of a place is interned before the places behind it.
#[cycle(interning)]
fn intern_places<M: MemoMeaning>(s: &Shared<M>, p: &mut Pass, ts: &[Tree]) -> Result<u32, CellsFull>
    requires table { IsPassOf s.now.table.shared.table_id s.now.sizes p.old }
    requires author { 0 < length p.old.view.authors }
    requires trees { (modulus top : ℕ) × AreCanonical modulus (polynomials ts.now) top }
    requires some { 1 ≤ length ts.now }
    ensures same { IsSamePass p.old p.new }
    ensures interned { Interned M.meaning s.now.sizes p.old.view
        (places_part (polynomials ts.now)) result p.new.view }
    ensures id { IfOk result (λ id. id < 2 ^ 20) }
    ensures author { 0 < length p.new.view.authors }
    ensures kind { OnOk result (IsPlaces (places_part (polynomials ts.now))) }
{
    match ts {
        [] => unreachable!(),
        [last] => {
            let head = intern_tree(s, p, last)?;
            put_part(s, p, &CellForm::Last(head))
        }
        [first, rest @ ..] => {
            let head = intern_tree(s, p, first)?;
            let others = intern_places(s, p, rest)?;
            put_part(s, p, &CellForm::More(head, others))
        }
    }
}

/// The cell of a whole expression.
fn intern_root<M: MemoMeaning>(s: &Shared<M>, p: &mut Pass, e: &Expr) -> Result<u32, CellsFull>
    requires table { IsPassOf s.now.table.shared.table_id s.now.sizes p.old }
    requires author { 0 < length p.old.view.authors }
    ensures same { IsSamePass p.old p.new }
    ensures interned { Interned M.meaning s.now.sizes p.old.view (part_of e.now) result p.new.view }
    ensures labels { OnOk result (Under (polynomial_of e.now.tree) (2 ^ 33)) }
{
    // A width is from 1 to 64.
    let _ = e.w.bits();
    let tree = intern_tree(s, p, &e.tree)?;
    put_part(s, p, &CellForm::Root(e.w, tree))
}

/// The node of an expression. Each part of the expression that has no cell is put, inner parts
/// first.
pub fn intern<M: MemoMeaning>(s: &Shared<M>, p: &mut Pass, e: &Expr) -> Result<Node, CellsFull>
    requires table { IsPassOf s.now.table.shared.table_id s.now.sizes p.old }
    requires author { 0 < length p.old.view.authors }
    ensures same { IsSamePass p.old p.new }
    ensures grows { GainsCells p.old.view p.new.view }
    ensures node { IfOk result (λ n. IsNodeOf p.new.view n e.now.w (polynomial_of e.now.tree)) }
    ensures parts { OnOk result (AllStand p.new.view.cells (part_of e.now)) }
    ensures full { OnErr result (Lacks s.now.sizes.cells p.new.view.cells (part_of e.now)) }
    ensures events { InternsBy M.meaning s.now.sizes p.old.view (part_of e.now) result p.new.view }
    ensures history { (asked : List Asked) → IsHistory s.now.sizes.cells p.old.view asked
        → IsHistory s.now.sizes.cells p.new.view (asked ++ asked_of (part_of e.now) result ∷ []) }
{
    let root = intern_root(s, p, e);
    p.facts();
    Ok(Node(root?))
}
