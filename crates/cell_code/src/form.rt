ghost use Rattle.std.specs.Prelude.{◌≡◌, ◌⊎◌, ◌+◌, ◌*◌, ◌^◌, ◌<◌, ◌≤◌, IfSome, IfNone, Some};
ghost use Rattle.cell_code.specs.declared.form.CellForm.{CellForm};
ghost use Rattle.cell_code.specs.Forms.{HasForm, IsWithinBits, bit_of, word_of};

use arith_word::{Label, Width};

/// What the word of a cell says. Each id is the number of another cell.
#[derive(Clone, Copy, Debug, PartialEq, Eq)]
pub enum CellForm {
    /// A number below 2^56.
    Small(u64),
    /// A number of 2^56 or more: the id of its low 32 bits, and its high 32 bits.
    Large(u32, u32),
    /// A place of a list: the id of its tree, and the id of the list behind it.
    More(u32, u32),
    /// The last place of a list: the id of its tree.
    Last(u32),
    /// A polynomial in one variable: the id of the list of its places, the variable's label, and
    /// whether it is a loop's counter.
    Ext(u32, Label, bool),
    /// An expression: its width, and the id of its tree.
    Root(Width, u32),
}

/// The number of ids.
const IDS: u64 = 1 << 20;

/// The unit of a form's number.
const FORM: u64 = 1 << 61;

/// The word of a cell.
pub fn cell_word(p: &CellForm) -> u64
    requires { IsWithinBits p.now }
    ensures { result ≡ word_of p.now }
{
    match *p {
        CellForm::Small(number) => FORM + number,
        CellForm::Large(low, high) => joined(2, u64::from(high), low),
        CellForm::More(head, rest) => joined(3, u64::from(rest), head),
        CellForm::Last(head) => joined(4, 0, head),
        CellForm::Ext(list, var, counter) => joined(5, variable(var.0, counter), list),
        CellForm::Root(width, tree) => joined(6, u64::from(width.bits()), tree),
    }
}

/// The word of a form from its number, its id and what stands above the id.
fn joined(number: u64, upper: u64, id: u32) -> u64
    requires number { number ≤ 6 }
    requires upper { upper < 2 ^ 33 }
    requires id { id < 2 ^ 20 }
    ensures { result ≡ number * 2 ^ 61 + (upper * 2 ^ 20 + id) }
{
    number * FORM + (upper * IDS + u64::from(id))
}

/// A variable's label, with bit 32 for a counter.
fn variable(label: u32, counter: bool) -> u64
    ensures value { result ≡ bit_of counter * 2 ^ 32 + label }
    ensures below { result < 2 ^ 33 }
{
    if counter {
        (1 << 32) + u64::from(label)
    } else {
        u64::from(label)
    }
}

/// The form of a cell's word; `None` exactly where the word is that of no form.
pub fn read_cell(word: u64) -> Option<CellForm>
    ensures some { IfSome result (HasForm word) }
    ensures each { (p : CellForm) → HasForm word p → result ≡ Some p }
{
    let upper = word % FORM / IDS;
    let id = (word % IDS) as u32;
    match word / FORM {
        1 => read_small(word % FORM),
        2 => read_large(upper, id),
        3 => read_more(upper, id),
        4 => read_last(upper, id),
        5 => read_ext(upper, id),
        6 => read_root(upper, id),
        _ => None,
    }
}

fn read_small(number: u64) -> Option<CellForm>
    ensures some { IfSome result (HasForm (2 ^ 61 + number)) }
    ensures none { IfNone result (2 ^ 56 ≤ number) }
{
    if number < 1 << 56 {
        Some(CellForm::Small(number))
    } else {
        None
    }
}

fn read_large(high: u64, low: u32) -> Option<CellForm>
    requires { low < 2 ^ 20 }
    ensures some { IfSome result (HasForm (2 * 2 ^ 61 + (high * 2 ^ 20 + low))) }
    ensures none { IfNone result (2 ^ 32 ≤ high) }
{
    if high < 1 << 32 {
        Some(CellForm::Large(low, high as u32))
    } else {
        None
    }
}

fn read_more(rest: u64, head: u32) -> Option<CellForm>
    requires { head < 2 ^ 20 }
    ensures some { IfSome result (HasForm (3 * 2 ^ 61 + (rest * 2 ^ 20 + head))) }
    ensures none { IfNone result (2 ^ 20 ≤ rest) }
{
    if rest < IDS {
        Some(CellForm::More(head, rest as u32))
    } else {
        None
    }
}

fn read_last(upper: u64, head: u32) -> Option<CellForm>
    requires { head < 2 ^ 20 }
    ensures some { IfSome result (HasForm (4 * 2 ^ 61 + (upper * 2 ^ 20 + head))) }
    ensures none { IfNone result (0 < upper) }
{
    if upper == 0 {
        Some(CellForm::Last(head))
    } else {
        None
    }
}

fn read_ext(variable: u64, list: u32) -> Option<CellForm>
    requires { list < 2 ^ 20 }
    ensures some { IfSome result (HasForm (5 * 2 ^ 61 + (variable * 2 ^ 20 + list))) }
    ensures none { IfNone result (2 ^ 33 ≤ variable) }
{
    if variable < 1 << 32 {
        Some(CellForm::Ext(list, Label(variable as u32), false))
    } else if variable < 1 << 33 {
        Some(CellForm::Ext(list, Label((variable - (1 << 32)) as u32), true))
    } else {
        None
    }
}

fn read_root(bits: u64, tree: u32) -> Option<CellForm>
    requires { tree < 2 ^ 20 }
    ensures some { IfSome result (HasForm (6 * 2 ^ 61 + (bits * 2 ^ 20 + tree))) }
    ensures none { IfNone result ((bits ≡ 0) ⊎ (64 < bits)) }
{
    if bits > 64 {
        return None;
    }
    match Width::new(bits as u32) {
        Some(width) => Some(CellForm::Root(width, tree)),
        None => None,
    }
}
