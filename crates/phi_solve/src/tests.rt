ghost use Rattle.std.specs.Prelude.{◌≡◌, IfOk};

use crate::{
    Solved, add_recurrence, chains_begin, chains_grow, chains_of_fixed_steps, is_below, is_low,
    recur, steps_and_chains_are_unique, yields_are_sums,
};
use arith_word::{Label, Width};
use scev_tree::{Expr, Tree, Variable, build, chain, degree, main_var, num, same, size, sym};
use std::alloc::{AllocError, Global};
use std::test::Fail;

const COUNTER: Label = Label(4);

const ARGUMENT: Label = Label(9);

// p + first * argument + second * argument^2; p itself where it isn't below the argument.
fn around(alloc: Global, p: Expr, first: u64, second: u64) -> Result<Expr, AllocError>
    ensures { IfOk result (λ r. r.w ≡ p.w) }
{
    if !is_low(&p.tree, ARGUMENT) {
        return Ok(p);
    }
    let w = p.w;
    let mut places = Vec::with_capacity(alloc, 3)?;
    places.push(p.tree)?;
    places.push(Tree::Num(first & w.mask()))?;
    places.push(Tree::Num(second & w.mask()))?;
    let argument = Variable {
        counter: false,
        label: ARGUMENT,
    };
    let tree = build(argument, places);
    Ok(Expr { w, tree })
}

// What the argument is, where init is fit for it.
fn solved(alloc: Global, yielded: &Expr, init: &Expr) -> Result<Option<Expr>, AllocError> {
    if yielded.w != init.w {
        return Ok(None);
    }
    if !is_below(&init.tree, COUNTER) {
        return Ok(None);
    }
    match recur(alloc, yielded, init, ARGUMENT, COUNTER)? {
        Solved::As(e) => Ok(Some(e)),
        Solved::Not => Ok(None),
    }
}

// Whether the argument that yields itself plus p, from init on, is the chain of these numbers.
fn is_chain(alloc: Global, p: Expr, init: u64, places: &[u64]) -> Result<bool, AllocError> {
    let w = p.w;
    let yielded = around(alloc, p, 1, 0)?;
    let expected = chain(alloc, w, COUNTER, places)?;
    match solved(alloc, &yielded, &num(w, init))? {
        Some(e) => Ok(same(&e, &expected)),
        None => Ok(false),
    }
}

#[test]
fn steps_are_summed(rt: HostRuntime) -> Result<(), Fail> {
    chains_begin();
    chains_grow();
    chains_of_fixed_steps();
    yields_are_sums();
    steps_and_chains_are_unique();
    let alloc = rt.alloc();
    for bits in [1, 8, 33, 64] {
        let Some(w) = Width::new(bits) else {
            continue;
        };
        assert!(rt; is_chain(alloc, num(w, 0), 7, &[7])?);
        assert!(rt; is_chain(alloc, num(w, 3), 7, &[7, 3])?);
        let p = chain(alloc, w, COUNTER, &[3, 5])?;
        assert!(rt; is_chain(alloc, p, 7, &[7, 3, 5])?);
        let high = chain(alloc, w, COUNTER, &[0, 0, 0, 0, 0, 0, 0, 1])?;
        assert!(rt; is_chain(alloc, high, 7, &[7, 0, 0, 0, 0, 0, 0, 0, 1])?);
    }
    Ok(())
}

#[test]
fn symbols_below_the_counter_are_steps(rt: HostRuntime) -> Result<(), Fail> {
    let alloc = rt.alloc();
    let Some(w) = Width::new(32) else {
        return Ok(());
    };
    let yielded = around(alloc, sym(alloc, w, Label(2))?, 1, 0)?;
    let found = solved(alloc, &yielded, &num(w, 7))?.ok_or("no chain")?;
    assert_eq!(rt;
        (size(&found), degree(&found), main_var(&found.tree)),
        (2, 2, Some(COUNTER))
    );
    Ok(())
}

#[test]
fn other_yields_are_not_solved(rt: HostRuntime) -> Result<(), Fail> {
    let alloc = rt.alloc();
    let Some(w) = Width::new(32) else {
        return Ok(());
    };
    let init = num(w, 7);
    let twice = around(alloc, num(w, 1), 2, 0)?;
    assert!(rt; solved(alloc, &twice, &init)?.is_none());
    let squared = around(alloc, num(w, 1), 1, 1)?;
    assert!(rt; solved(alloc, &squared, &init)?.is_none());
    let above = around(alloc, chain(alloc, w, Label(6), &[0, 1])?, 1, 0)?;
    assert!(rt; solved(alloc, &above, &init)?.is_none());
    let same_label = around(alloc, sym(alloc, w, COUNTER)?, 1, 0)?;
    assert!(rt; solved(alloc, &same_label, &init)?.is_none());
    assert!(rt; solved(alloc, &num(w, 1), &init)?.is_none());
    Ok(())
}

#[test]
fn induction_variables_are_chains_of_start_and_step(rt: HostRuntime) -> Result<(), Fail> {
    let alloc = rt.alloc();
    let Some(w) = Width::new(32) else {
        return Ok(());
    };
    let (lower, step) = (num(w, 7), num(w, 3));
    assert!(rt; is_below(&lower.tree, COUNTER) && is_low(&step.tree, COUNTER));
    let variable = add_recurrence(alloc, &lower, &step, COUNTER)?;
    assert!(rt; same(&variable, &chain(alloc, w, COUNTER, &[7, 3])?));
    Ok(())
}
