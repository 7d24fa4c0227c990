use arith_word::{Label, Width};
use chrec_algebra::{add, is_within, mul};
use scev_tree::{Expr, chain, num, scale, size, sym};
use std::alloc::{AllocError, Global};
use std::rt::Clock;
use std::time::Instant;

const RUNS: u32 = 600;

/// The sum; the first where the widths differ.
fn plus(alloc: Global, a: Expr, b: &Expr) -> Result<Expr, AllocError> {
    if a.w == b.w {
        return Ok(add(alloc, &a, b)?);
    }
    Ok(a)
}

/// The product; 0 where the factors are beyond the limits of products.
fn times(alloc: Global, a: &Expr, b: &Expr) -> Result<Expr, AllocError> {
    if a.w == b.w && is_within(a) && is_within(b) {
        return Ok(mul(alloc, a, b)?);
    }
    Ok(num(a.w, 0))
}

/// The place k of a counter.
fn place(alloc: Global, w: Width, x: Label, k: u32) -> Result<Expr, AllocError> {
    let mut places = Vec::new(alloc);
    for _ in 0..k {
        places.push(0u64)?;
    }
    places.push(1)?;
    Ok(chain(alloc, w, x, places.as_slice())?)
}

/// The power k of a symbol.
fn power(alloc: Global, w: Width, x: Label, k: u32) -> Result<Expr, AllocError> {
    let x = sym(alloc, w, x)?;
    let mut out = num(w, 1);
    for _ in 0..k {
        out = times(alloc, &out, &x)?;
    }
    Ok(out)
}

/// The variables of a dense polynomial: how many, up to which exponent each, and up to which degree.
#[derive(Clone, Copy, Debug)]
struct Shape {
    counter: bool,
    count: u32,
    exponent: u32,
    degree: u32,
}

/// The monomial whose exponents are the digits of the number, or 0 where its degree is too great.
fn monomial(alloc: Global, w: Width, shape: Shape, code: u32) -> Result<Expr, AllocError> {
    let mut left = code;
    let mut degree = 0u32;
    let mut out = num(w, 1);
    for v in 0..shape.count {
        let k = left % shape.exponent.saturating_add(1).max(1);
        left /= shape.exponent.saturating_add(1).max(1);
        degree = degree.saturating_add(k);
        let factor = if shape.counter {
            place(alloc, w, Label(v), k)?
        } else {
            power(alloc, w, Label(v), k)?
        };
        if degree > shape.degree {
            return Ok(num(w, 0));
        }
        out = times(alloc, &out, &factor)?;
    }
    Ok(out)
}

/// All monomials of the shape, at most 64, with odd coefficients that follow from the seed.
fn dense(alloc: Global, w: Width, shape: Shape, seed: u64) -> Result<Expr, AllocError> {
    let mut sum = num(w, 0);
    let mut c = seed;
    for code in 0..shape.exponent.saturating_add(1).saturating_pow(shape.count) {
        let term = monomial(alloc, w, shape, code)?;
        c = c
            .wrapping_mul(6364136223846793005)
            .wrapping_add(1442695040888963407);
        if size(&sum) < 64 {
            sum = plus(alloc, sum, &scale(alloc, &term, c | 1)?)?;
        }
    }
    Ok(sum)
}

/// 5 and 63 symbols, each with a factor.
fn linear(alloc: Global, w: Width, first: u32) -> Result<Expr, AllocError> {
    let mut sum = num(w, 5);
    for k in 0..63u32 {
        let x = sym(alloc, w, Label(first.saturating_add(k)))?;
        sum = plus(alloc, sum, &scale(alloc, &x, u64::from(k) + 3)?)?;
    }
    Ok(sum)
}

/// The nanoseconds that a product takes, and a sum.
fn show<R: Print + Clock + AllocGlobal>(
    rt: &R,
    name: &str,
    a: &Expr,
    b: &Expr,
) -> anyhow::Result<()> {
    let mut product = u128::MAX;
    let mut sum = u128::MAX;
    for _ in 0..RUNS {
        let start = Instant::now(rt)?;
        let _ = times(rt.alloc(), a, b)?;
        product = product.min(start.elapsed(rt)?.as_nanos());
        if a.w == b.w {
            let start = Instant::now(rt)?;
            let _ = add(rt.alloc(), a, b)?;
            sum = sum.min(start.elapsed(rt)?.as_nanos());
        }
    }
    println!(rt;
        "{name}, {} by {} monomials: product {product} ns, sum {sum} ns",
        size(a),
        size(b)
    )?;
    Ok(())
}

/// Two dense polynomials of the shape.
fn show_dense<R: Print + Clock + AllocGlobal>(
    rt: &R,
    name: &str,
    w: Width,
    shape: Shape,
) -> anyhow::Result<()> {
    let a = dense(rt.alloc(), w, shape, 3)?;
    let b = dense(rt.alloc(), w, shape, 5)?;
    show(rt, name, &a, &b)
}

/// Counters and symbols, each in the same shape.
fn show_both<R: Print + Clock + AllocGlobal>(
    rt: &R,
    w: Width,
    count: u32,
    exponent: u32,
    degree: u32,
) -> anyhow::Result<()> {
    for counter in [true, false] {
        let name = if counter { "counter(s)" } else { "symbol(s)" };
        let name = format!(in rt.alloc(); "{count} {name}")?;
        show_dense(
            rt,
            name.as_str(),
            w,
            Shape {
                counter,
                count,
                exponent,
                degree,
            },
        )?;
    }
    Ok(())
}

/// Products of expressions of 64 bits in one to six variables, and of 63 symbols.
pub(super) fn run<R: Print + Clock + AllocGlobal>(rt: &R) -> anyhow::Result<()> {
    let Some(w) = Width::new(64) else {
        return Ok(());
    };
    show_both(rt, w, 1, 7, 8)?;
    show_both(rt, w, 2, 8, 8)?;
    show_both(rt, w, 3, 3, 8)?;
    show_both(rt, w, 6, 2, 2)?;
    show_both(rt, w, 6, 1, 6)?;
    let a = linear(rt.alloc(), w, 0)?;
    let b = linear(rt.alloc(), w, 100)?;
    show(rt, "sums of symbols", &a, &b)
}
