ghost use Rattle.std.specs.Prelude.{◌≡◌, IfOk};
ghost use Rattle.trip_count.specs.Turns.{IsTest};

use crate::{
    Test, Turns, Why, guard_is, guards_hold_with_their_tests, symbolic_counts_are_invariant,
    trip_counts_are_least_exits, turns,
};
use arith_word::{Label, Pred, Width};
use chrec_algebra::sub;
use scev_tree::{Expr, chain, num, same, sym};
use std::alloc::{AllocError, Global};
use std::test::Fail;

const COUNTER: Label = Label(9);

fn compare(alloc: Global, pred: Pred, left: Expr, right: Expr) -> Result<Test, AllocError>
    requires { left.w ≡ right.w }
    ensures { IfOk result (λ t. IsTest t) }
{
    let diff = sub(alloc, &left, &right)?;
    Ok(Test::Compare {
        pred,
        left,
        right,
        diff,
    })
}

// The trip count while start, start + step and so on have the predicate with a number.
fn of_numbers(
    alloc: Global,
    w: Width,
    pred: Pred,
    line: [u64; 2],
    bound: u64,
) -> Result<Turns, AllocError> {
    let left = chain(alloc, w, COUNTER, &line)?;
    let test = compare(alloc, pred, left, num(w, bound))?;
    Ok(turns(alloc, COUNTER, &test)?)
}

#[test]
fn numbers_wrap(rt: HostRuntime) -> Result<(), Fail> {
    trip_counts_are_least_exits();
    let alloc = rt.alloc();
    let Some(byte) = Width::new(8) else {
        return Ok(());
    };
    let thirds = of_numbers(alloc, byte, Pred::Slt, [0, 3], 127)?;
    assert!(rt; matches!(&thirds, Turns::Count(213)));
    let halves = of_numbers(alloc, byte, Pred::Slt, [0, 2], 127)?;
    assert!(rt; matches!(&halves, Turns::Never));
    let passed = of_numbers(alloc, byte, Pred::Ult, [250, 10], 200)?;
    assert!(rt; matches!(&passed, Turns::Count(0)));
    let met = of_numbers(alloc, byte, Pred::Ne, [250, 9], 4)?;
    assert!(rt; matches!(&met, Turns::Count(58)));
    let test = Test::Other;
    let other = turns(alloc, COUNTER, &test)?;
    assert!(rt; matches!(&other, Turns::Unknown(Why::NotACompare)));
    Ok(())
}

#[test]
fn symbols_give_expressions(rt: HostRuntime) -> Result<(), Fail> {
    symbolic_counts_are_invariant();
    guards_hold_with_their_tests();
    let alloc = rt.alloc();
    let Some(word) = Width::new(64) else {
        return Ok(());
    };
    let up = compare(
        alloc,
        Pred::Slt,
        chain(alloc, word, COUNTER, &[5, 1])?,
        sym(alloc, word, Label(2))?,
    )?;
    let count = turns(alloc, COUNTER, &up)?;
    let expected = sub(alloc, &sym(alloc, word, Label(2))?, &num(word, 5))?;
    assert!(rt; matches!(&count, Turns::Guarded { e, .. } if same(e, &expected)));
    let guard = compare(alloc, Pred::Slt, num(word, 5), sym(alloc, word, Label(2))?)?;
    assert!(rt; guard_is(&count, &guard));
    let turned = compare(alloc, Pred::Sgt, sym(alloc, word, Label(2))?, num(word, 5))?;
    assert!(rt; guard_is(&count, &turned));
    assert!(rt; !guard_is(&count, &up));
    Ok(())
}
