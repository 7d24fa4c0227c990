ghost use Rattle.std.specs.Prelude.{◌≡◌, ℕ, true, false, ◌<◌, length};
ghost use Rattle.scev_tree.specs.Polynomial.{AreCanonical, IsBuilt};
ghost use Rattle.scev_tree.specs.Tree.{polynomial_of, polynomials, EndsZero, Tidy, IsTrimmed};
ghost use Rattle.scev_tree.specs.Variable.{rank_of};

use crate::tree::{Tree, is_zero};
use crate::variable::Variable;
use sqlite_items::Items;

fn ends_in_zero(places: &[Tree]) -> bool
    ensures zero { result ≡ true → EndsZero (polynomials places.now) }
    ensures some { result ≡ true → 0 < length places.now }
    ensures tidy { result ≡ false → Tidy (polynomials places.now) }
{
    match places {
        [] => false,
        [.., last] => is_zero(last),
    }
}

fn trim(places: &mut Vec<Tree>)
    ensures same { IsTrimmed (polynomials places.old.items) (polynomials places.new.items) }
    ensures tidy { Tidy (polynomials places.new.items) }
{
    while ends_in_zero(places.as_slice()) {
        let kept = places.len() - 1;
        places.truncate(kept);
    }
}

/// The canonical tree of the polynomial in this variable with these places: zeros at the end go, and
/// so does the variable where one place is left.
pub fn build(x: Variable, mut places: Vec<Tree>) -> Tree
    ensures { (M : ℕ) → 0 < M → AreCanonical M (polynomials places.items) (rank_of x)
        → IsBuilt M (rank_of x) (polynomials places.items) (polynomial_of result) }
{
    trim(&mut places);
    if places.len() > 1 {
        Tree::Ext {
            counter: x.counter,
            var: x.label,
            ops: Items::from_vec(places),
        }
    } else {
        match places.pop() {
            Some(only) => only,
            None => Tree::Num(0),
        }
    }
}
