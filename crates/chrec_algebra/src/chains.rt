ghost use Rattle.std.specs.Prelude.{◌≡◌, ℕ, true, false, IsTrue, ◌↔◌, ◌-◌, ◌*◌, ◌%◌, ◌≤◌, ◌^◌, [], length};
ghost use Rattle.chrec_algebra.specs.Numbers.{IsNumber, AreNumbers, numbers, IsNumbersOf};
ghost use Rattle.chrec_algebra.specs.Places.{AreRisen, IsRaised};
ghost use Rattle.chrec_algebra.specs.Product.{AreProducts, AreRows, IsRow, row_factor as row_factor_of};
ghost use Rattle.scev_tree.specs.Polynomial.{coefficient, num, AreCanonical, variable_of};
ghost use Rattle.scev_tree.specs.Tree.{polynomial_of, polynomials};
ghost use Rattle.scev_tree.specs.Variable.{rank_of};

use crate::coefficients::binomial;
use crate::multiplier::Multiplier;
use arith_word::{Label, Width, add, mul};
use scev_tree::{Tree, Variable};

#[tactic(auto, using(crate::proofs::Sides::polynomial_of_ext, crate::proofs::Sides::polynomial_of_num))]
fn is_number(t: &Tree) -> bool
    ensures { IsTrue result ↔ IsNumber (polynomial_of t.now) }
{
    match t {
        Tree::Num(_) => true,
        Tree::Ext { .. } => false,
    }
}

/// Whether all trees are numbers.
pub fn are_numbers(ts: &[Tree]) -> bool
    ensures { IsTrue result ↔ AreNumbers (polynomials ts.now) }
{
    for t in ts {
        if !is_number(t) {
            return false;
        }
    }
    true
}

#[tactic(auto, using(crate::proofs::Sides::polynomial_of_ext, crate::proofs::Sides::polynomial_of_num))]
fn number(t: &Tree) -> u64
    requires { IsNumber (polynomial_of t.now) }
    ensures { result ≡ coefficient (polynomial_of t.now) [] }
{
    match t {
        Tree::Num(v) => *v,
        Tree::Ext { .. } => 0,
    }
}

// The numbers of places, with zeros after them.
fn numbers_of(ts: &[Tree]) -> [u64; 9]
    requires count { length ts.now ≤ 9 }
    requires numbers { AreNumbers (polynomials ts.now) }
    ensures count { length result ≡ 9 }
    ensures numbers { IsNumbersOf (length ts.now) (numbers result) (polynomials ts.now) }
{
    let mut out = [0; 9];
    for (j, t) in ts.iter().enumerate() {
        out[j] = number(t);
    }
    out
}

/// The number that the place i times the place j goes with in the place i + j, times c.
pub fn row_factor(by: &Multiplier, i: usize, j: usize) -> u64
    requires left { i ≤ 8 }
    requires right { j ≤ 8 }
    ensures { result % 2 ^ by.now.w
        ≡ (by.now.c * row_factor_of (rank_of by.now.x) i j) % 2 ^ by.now.w }
{
    if by.x.counter {
        mul(by.w, by.c, binomial(i + j, i))
    } else {
        by.c
    }
}

// Adds the number that is the multiplier, as place i, times the first n of the numbers us to the
// numbers of the product.
fn add_number_row(out: &mut [u64; 18], by: &Multiplier, i: usize, us: &[u64; 9], n: usize)
    requires index { i ≤ 8 }
    requires count { n ≤ 9 }
    requires places { AreCanonical (2 ^ by.now.w) (numbers out.old) (rank_of by.now.x) }
    ensures { IsRow (2 ^ by.now.w) 1 (rank_of by.now.x) i n
        (num by.now.c) (numbers us.now) (numbers out.old) (numbers out.new) }
{
    for j in 0..n {
        let factor = row_factor(by, i, j);
        out[i + j] = add(by.w, out[i + j], mul(by.w, factor, us[j]));
    }
}

// Adds to each number the next.
fn raise_numbers(w: Width, us: &mut [u64; 9])
    requires { (x : ℕ) × AreCanonical (2 ^ w) (numbers us.old) x }
    ensures { IsRaised (2 ^ w) (numbers us.old) (numbers us.new) }
{
    for j in 1..9usize {
        us[j - 1] = add(w, us[j - 1], us[j]);
    }
}

// Makes the row i of sums from the row before it.
fn raise_numbers_to(w: Width, us: &mut [u64; 9], i: usize, qs: &[Tree])
    requires { (x : ℕ) × AreRisen (2 ^ w) x (i - 1) (numbers us.old) (polynomials qs.now) }
    ensures { (x : ℕ) → AreRisen (2 ^ w) x (i - 1) (numbers us.old) (polynomials qs.now) → AreRisen
        (2 ^ w) x i (numbers us.new) (polynomials qs.now) }
{
    let _ = qs;
    if i > 0 {
        raise_numbers(w, us);
    }
}

fn multiply_counters(w: Width, out: &mut [u64; 18], var: Label, ps: &[Tree], qs: &[Tree])
    requires left_count { length ps.now ≤ 9 }
    requires right_count { length qs.now ≤ 9 }
    requires left_numbers { AreNumbers (polynomials ps.now) }
    requires right_numbers { AreNumbers (polynomials qs.now) }
    requires places { AreCanonical (2 ^ w) (numbers out.old) (variable_of true var.0) }
    requires right { AreCanonical (2 ^ w) (polynomials qs.now) (variable_of true var.0) }
    ensures { AreRows (2 ^ w) 1 (variable_of true var.0) (length ps.now) (polynomials ps.now)
        (polynomials qs.now) (numbers out.old) (numbers out.new) }
{
    let mut us = numbers_of(qs);
    for (i, p) in ps.iter().enumerate() {
        raise_numbers_to(w, &mut us, i, qs);
        let by = Multiplier {
            w,
            c: number(p),
            x: Variable {
                counter: true,
                label: var,
            },
        };
        add_number_row(out, &by, i, &us, qs.len());
    }
}

fn multiply_symbols(w: Width, out: &mut [u64; 18], var: Label, ps: &[Tree], qs: &[Tree])
    requires left_count { length ps.now ≤ 9 }
    requires right_count { length qs.now ≤ 9 }
    requires left_numbers { AreNumbers (polynomials ps.now) }
    requires right_numbers { AreNumbers (polynomials qs.now) }
    requires places { AreCanonical (2 ^ w) (numbers out.old) (variable_of false var.0) }
    requires right { AreCanonical (2 ^ w) (polynomials qs.now) (variable_of false var.0) }
    ensures { AreRows (2 ^ w) 1 (variable_of false var.0) (length ps.now) (polynomials ps.now)
        (polynomials qs.now) (numbers out.old) (numbers out.new) }
{
    let us = numbers_of(qs);
    for (i, p) in ps.iter().enumerate() {
        let x = Variable {
            counter: false,
            label: var,
        };
        let by = Multiplier { w, c: number(p), x };
        add_number_row(out, &by, i, &us, qs.len());
    }
}

/// The numbers of the product of two polynomials in one variable whose places are numbers.
pub fn multiply_chains(w: Width, x: Variable, ps: &[Tree], qs: &[Tree]) -> [u64; 18]
    requires left_count { length ps.now ≤ 9 }
    requires right_count { length qs.now ≤ 9 }
    requires left_numbers { AreNumbers (polynomials ps.now) }
    requires right_numbers { AreNumbers (polynomials qs.now) }
    requires right { AreCanonical (2 ^ w) (polynomials qs.now) (rank_of x) }
    ensures count { length result ≡ 18 }
    ensures products { AreProducts (2 ^ w) (rank_of x) (numbers result) (polynomials ps.now)
        (polynomials qs.now) }
{
    let mut out = [0; 18];
    if x.counter {
        multiply_counters(w, &mut out, x.label, ps, qs);
    } else {
        multiply_symbols(w, &mut out, x.label, ps, qs);
    }
    out
}
