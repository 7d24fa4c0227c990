//! Rows computed by hand, and all arguments of small widths against a search.

ghost use Rattle.std.specs.Prelude.{◌≡◌};

use super::*;
use arith_word::{Pred, Width, Word, add, compare, mul, sub};

#[test]
fn hits_are_the_least(rt: HostRuntime) {
    let rows = [
        (8, 129, 3, 1, Hit::At(213)),
        (8, 5, 7, 256, Hit::At(0)),
        (8, 0, 0, 0, Hit::Never),
        (64, u64::MAX, 1, 1, Hit::At(1)),
        (64, 1, 0, 1, Hit::Never),
        (64, 1, 2, 1, Hit::Never),
        (64, 1, 3, 1, Hit::At(6148914691236517205)),
    ];
    for (bits, a, b, len, want) in rows {
        let w = Width::new(bits).expect(&rt, "a width");
        assert!(rt; len <= u128::from(w.mask()) + 1);
        let hit = first_hit(w, add(w, a, 0), add(w, b, 0), len);
        assert_eq!(rt; hit, want, "{a} by {b} below {len}");
    }
}

/// The same by trying each turn.
fn tried(w: Width, a: u64, b: u64, len: u128) -> Hit {
    for n in 0..=w.mask() {
        if u128::from(add(w, a, mul(w, b, n))) < len {
            return Hit::At(n);
        }
    }
    Hit::Never
}

#[test]
fn small_widths_agree_with_a_search(rt: HostRuntime) {
    for bits in 1..7 {
        let w = Width::new(bits).expect(&rt, "a width");
        // both numbers of at most six bits
        for ab in 0..4096u64 {
            let (a, b) = (add(w, ab, 0), add(w, ab >> bits, 0));
            for len in 0..=u128::from(w.mask()) + 1 {
                assert!(rt; len <= u128::from(w.mask()) + 1);
                assert_eq!(rt; first_hit(w, a, b, len), tried(w, a, b, len), "{a} by {b}");
            }
        }
    }
}

const PREDS: [Pred; 10] = [
    Pred::Eq,
    Pred::Ne,
    Pred::Slt,
    Pred::Sle,
    Pred::Sgt,
    Pred::Sge,
    Pred::Ult,
    Pred::Ule,
    Pred::Ugt,
    Pred::Uge,
];

/// The low bits of `v` as a word.
fn word(w: Width, v: u64) -> Word
    ensures { result.w ≡ w }
{
    Word { w, v: add(w, v, 0) }
}

#[test]
fn arcs_have_the_numbers_that_fail(rt: HostRuntime) {
    for bits in 1..7 {
        let w = Width::new(bits).expect(&rt, "a width");
        for pred in PREDS {
            for cv in 0..4096u64 {
                let (c, v) = (add(w, cv, 0), add(w, cv >> bits, 0));
                let arc = exit_arc(pred, c, w);
                let fails = u128::from(sub(w, v, arc.from)) < arc.len;
                assert_eq!(rt;
                    compare(pred, word(w, v), word(w, c)),
                    !fails,
                    "{pred:?} {v} {c}"
                );
            }
        }
    }
}

#[test]
fn least_exits_agree_with_a_search(rt: HostRuntime) {
    for bits in 1..5 {
        let w = Width::new(bits).expect(&rt, "a width");
        for pred in PREDS {
            // three numbers of at most four bits
            for abc in 0..4096u64 {
                let (a, b, c) = (add(w, abc, 0), add(w, abc >> bits, 0), add(w, abc >> 8, 0));
                let exit = least_exit(w, pred, a, b, c);
                assert_eq!(rt; exit, tried_exit(w, pred, a, b, c), "{pred:?} {a} {b} {c}");
            }
        }
    }
}

/// The same by trying each iteration.
fn tried_exit(w: Width, pred: Pred, a: u64, b: u64, c: u64) -> Hit {
    for n in 0..=w.mask() {
        if !compare(pred, word(w, add(w, a, mul(w, b, n))), word(w, c)) {
            return Hit::At(n);
        }
    }
    Hit::Never
}
