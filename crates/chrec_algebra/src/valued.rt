ghost use Rattle.std.specs.Prelude.{◌≡◌, ◌≤◌, ◌%◌, ◌^◌, length, if◌then◌else◌};
ghost use Rattle.chrec_algebra.specs.Entries.{number_in};
ghost use Rattle.chrec_algebra.specs.Product.{Narrow, NarrowAll};
ghost use Rattle.scev_tree.specs.Tree.{polynomial_of, polynomials};
ghost use Rattle.arith_word.specs.Binomial.{binomial};
ghost use Rattle.scev_tree.specs.Value.{numbers, value, values};
ghost use Rattle.scev_tree.specs.Variable.{rank_of};

use arith_word::{Label, Width, add, mul};
use scev_binom::choose;
use scev_tree::{Tree, Variable};

// The number of the first entry of a label; 0 where it has none.
fn number_of(entries: &[(Label, u64)], label: Label) -> u64
    ensures { result ≡ number_in entries.now label.0 }
{
    for entry in entries {
        if entry.0.0 == label.0 {
            return entry.1;
        }
    }
    0
}

// The number of a variable.
fn number_for(x: Variable, env: &[(Label, u64)], counters: &[(Label, u64)]) -> u64
    ensures { result ≡ numbers (number_in env.now) (number_in counters.now) (rank_of x) }
{
    if x.counter {
        number_of(counters, x.label)
    } else {
        number_of(env, x.label)
    }
}

// n^k modulo 2 to the width.
fn power(w: Width, n: u64, k: u32) -> u64
    ensures { result ≡ n ^ k % 2 ^ w }
{
    let mut out = mul(w, 1, 1);
    for step in 0..k {
        let _ = step;
        out = mul(w, out, n);
    }
    out
}

// What the place k of a variable is multiplied by.
fn factor(w: Width, counter: bool, n: u64, k: u32) -> u64
    requires { k ≤ 8 }
    ensures { result ≡ (if counter then binomial n k else n ^ k) % 2 ^ w }
{
    if counter {
        choose(w, n, k)
    } else {
        power(w, n, k)
    }
}

/// The value modulo 2 to the width.
#[cycle(valuing)]
#[tactic(auto, using(crate::proofs::Sides::polynomial_of_num))]
pub fn tree_value(w: Width, t: &Tree, env: &[(Label, u64)], counters: &[(Label, u64)]) -> u64
    requires { Narrow (polynomial_of t.now) }
    ensures { result ≡ value (numbers (number_in env.now) (number_in counters.now))
        (polynomial_of t.now) % 2 ^ w }
{
    match t {
        Tree::Num(v) => mul(w, 1, *v),
        Tree::Ext { counter, var, ops } => {
            let x = Variable {
                counter: *counter,
                label: *var,
            };
            let n = number_for(x, env, counters);
            places_value(w, x, n, ops.as_slice(), env, counters)
        }
    }
}

#[cycle(valuing)]
fn places_value(
    w: Width,
    x: Variable,
    n: u64,
    ts: &[Tree],
    env: &[(Label, u64)],
    counters: &[(Label, u64)],
) -> u64
    requires narrow { NarrowAll (polynomials ts.now) }
    requires count { length ts.now ≤ 9 }
    requires number { n ≡ numbers (number_in env.now) (number_in counters.now) (rank_of x) }
    ensures { result ≡ values (numbers (number_in env.now) (number_in counters.now)) (rank_of x)
        (polynomials ts.now) 0 % 2 ^ w }
{
    let mut sum = 0u64;
    for (k, t) in ts.iter().enumerate() {
        let times = factor(w, x.counter, n, k as u32);
        sum = add(w, sum, mul(w, tree_value(w, t, env, counters), times));
    }
    sum
}
