ghost use Rattle.std.specs.Prelude.{◌≡◌, IfOk};

use crate::{
    add, at, cut, is_within, mul, neg, sub, truncate, value, values_of_multiples,
    values_of_products, values_of_replacements, values_of_sums,
};
use arith_word::{Label, Width};
use scev_tree::{Expr, chain, degree, main_var, num, same, scale, size, sym};
use std::alloc::{AllocError, Global};
use std::test::Fail;

// The product, of factors that the test keeps within the limits.
fn times(alloc: Global, a: &Expr, b: &Expr) -> Result<Expr, AllocError>
    requires { a.now.w ≡ b.now.w }
    ensures { IfOk result (λ r. r.w ≡ a.now.w) }
{
    if !is_within(a) {
        return Ok(num(a.w, 0));
    }
    if !is_within(b) {
        return Ok(num(a.w, 0));
    }
    Ok(mul(alloc, a, b)?)
}

#[test]
fn chains_multiply_by_binomials(rt: HostRuntime) -> Result<(), Fail> {
    let alloc = rt.alloc();
    let Some(w) = Width::new(64) else {
        return Ok(());
    };
    values_of_products();
    let n = Label(4);
    let sum = add(
        alloc,
        &chain(alloc, w, n, &[0, 1])?,
        &chain(alloc, w, n, &[3, 5])?,
    )?;
    assert!(rt; same(&sum, &chain(alloc, w, n, &[3, 6])?));
    let cubic = chain(alloc, w, n, &[0, 0, 0, 1])?;
    assert!(rt;
        same(
            &times(alloc, &cubic, &cubic)?,
            &chain(alloc, w, n, &[0, 0, 0, 1, 12, 30, 20])?
        )
    );
    let quartic = chain(alloc, w, n, &[0, 0, 0, 0, 1])?;
    let square = times(alloc, &quartic, &quartic)?;
    assert!(rt;
        same(
            &square,
            &chain(alloc, w, n, &[0, 0, 0, 0, 1, 20, 90, 140, 70])?
        )
    );
    assert!(rt;
        same(
            &cut(alloc, square, Label(9))?,
            &chain(alloc, w, n, &[0, 0, 0, 0, 1, 20, 90, 140, 70])?
        )
    );
    Ok(())
}

#[test]
fn symbols_and_widths(rt: HostRuntime) -> Result<(), Fail> {
    let alloc = rt.alloc();
    let (Some(byte), Some(word)) = (Width::new(8), Width::new(16)) else {
        return Ok(());
    };
    values_of_multiples();
    let x = sym(alloc, byte, Label(5))?;
    let y = sym(alloc, byte, Label(6))?;
    let none = times(alloc, &scale(alloc, &x, 16)?, &scale(alloc, &y, 16)?)?;
    assert!(rt; same(&none, &num(byte, 0)));
    let square = times(alloc, &x, &x)?;
    let mixed = times(alloc, &square, &chain(alloc, byte, Label(7), &[0, 1])?)?;
    assert_eq!(rt;
        (size(&mixed), degree(&mixed), main_var(&mixed.tree)),
        (1, 3, Some(Label(7)))
    );
    assert!(rt; is_within(&mixed));
    assert_eq!(rt; value(&mixed, &[(Label(5), 3)], &[(Label(7), 5)]), 45);
    let high = scale(alloc, &sym(alloc, word, Label(5))?, 256)?;
    let low = truncate(alloc, &add(alloc, &high, &num(word, 511))?, byte)?;
    assert!(rt; same(&low, &num(byte, 255)));
    assert!(rt; same(&sub(alloc, &x, &x)?, &num(byte, 0)));
    assert!(rt; same(&neg(alloc, &num(byte, 1))?, &num(byte, 255)));
    Ok(())
}

#[test]
fn counters_are_replaced(rt: HostRuntime) -> Result<(), Fail> {
    let alloc = rt.alloc();
    let Some(w) = Width::new(64) else {
        return Ok(());
    };
    values_of_replacements();
    let triangle = chain(alloc, w, Label(4), &[0, 0, 1])?;
    assert!(rt; is_within(&triangle));
    let rows = [
        (0, 0),
        (7, 21),
        (9223372036854775808, 13835058055282163712),
        (18446744073709551615, 9223372036854775809),
    ];
    for (n, expected) in rows {
        assert!(rt;
            same(&at(alloc, &triangle, Label(4), n)?, &num(w, expected)),
            "at {n}"
        );
    }
    assert!(rt; same(&at(alloc, &triangle, Label(5), 7)?, &triangle));
    Ok(())
}

#[test]
fn the_limits(rt: HostRuntime) -> Result<(), Fail> {
    let alloc = rt.alloc();
    let Some(w) = Width::new(32) else {
        return Ok(());
    };
    let own = Label(900);
    let mut sum = num(w, 1);
    for label in 0..63 {
        sum = widened(alloc, sum, label)?;
    }
    assert!(rt; is_within(&sum));
    assert!(rt; !is_within(&widened(alloc, sum, 63)?));
    let long = chain(alloc, w, Label(4), &[0, 0, 0, 0, 0, 0, 0, 0, 0, 1])?;
    assert!(rt; same(&cut(alloc, long, own)?, &sym(alloc, w, own)?));
    Ok(())
}

// The sum of the expression and a symbol.
fn widened(alloc: Global, sum: Expr, label: u32) -> Result<Expr, AllocError> {
    let x = sym(alloc, sum.w, Label(label))?;
    Ok(add(alloc, &sum, &x)?)
}

// The sum of c times each product of two expressions of one width.
fn sum_of(alloc: Global, w: Width, terms: &[(u64, &Expr, &Expr)]) -> Result<Expr, AllocError> {
    let mut sum = num(w, 0);
    for (c, a, b) in terms {
        if a.w == b.w {
            let term = scale(alloc, &times(alloc, a, b)?, *c)?;
            if sum.w == term.w {
                sum = add(alloc, &sum, &term)?;
            }
        }
    }
    Ok(sum)
}

#[test]
fn products_in_several_variables(rt: HostRuntime) -> Result<(), Fail> {
    let alloc = rt.alloc();
    let Some(w) = Width::new(16) else {
        return Ok(());
    };
    let one = num(w, 1);
    let (x, y) = (sym(alloc, w, Label(5))?, sym(alloc, w, Label(8))?);
    let n = chain(alloc, w, Label(6), &[0, 1])?;
    let pairs = chain(alloc, w, Label(6), &[0, 0, 1])?;
    let m = chain(alloc, w, Label(7), &[0, 1])?;
    let triangle = chain(alloc, w, Label(7), &[0, 0, 1])?;
    let a = sum_of(
        alloc,
        w,
        &[
            (3, &one, &one),
            (5, &x, &one),
            (7, &x, &n),
            (2, &triangle, &n),
            (1, &y, &m),
        ],
    )?;
    let b = sum_of(
        alloc,
        w,
        &[
            (1, &one, &one),
            (9, &y, &one),
            (4, &triangle, &one),
            (6, &n, &y),
            (1, &x, &pairs),
        ],
    )?;
    // The number of monomials, the degree and the value are from Python.
    let product = sum_of(alloc, w, &[(1, &a, &b)])?;
    assert_eq!(rt; (size(&product), degree(&product)), (27, 6));
    assert!(rt; is_within(&product));
    let symbols = [(Label(5), 11), (Label(8), 13)];
    assert_eq!(rt;
        value(&product, &symbols, &[(Label(6), 6), (Label(7), 9)]),
        39251
    );
    assert!(rt; same(&product, &sum_of(alloc, w, &[(1, &b, &a)])?));
    Ok(())
}

struct Row {
    bits: u32,
    left: [u64; 3],
    right: [u64; 4],
    x: u64,
    n: u64,
    // The values of left * x + 5 and right + x, then of their sum, difference and product, from Python.
    values: [u64; 5],
}

const ROWS: [Row; 8] = [
    Row {
        bits: 1,
        left: [1, 0, 1],
        right: [0, 0, 0, 1],
        x: 3960482443532127989,
        n: 0,
        values: [0, 1, 1, 1, 0],
    },
    Row {
        bits: 1,
        left: [1, 1, 0],
        right: [0, 0, 1, 0],
        x: 10430779633273967791,
        n: 3,
        values: [1, 0, 1, 1, 0],
    },
    Row {
        bits: 8,
        left: [31, 203, 25],
        right: [113, 23, 68, 148],
        x: 10531498782278263232,
        n: 18446744073709551615,
        values: [197, 202, 143, 251, 114],
    },
    Row {
        bits: 8,
        left: [92, 52, 96],
        right: [190, 49, 32, 30],
        x: 3799267732704684465,
        n: 18446744073709551615,
        values: [13, 64, 77, 205, 64],
    },
    Row {
        bits: 33,
        left: [5644219119, 6241379376, 1287489453],
        right: [3411833895, 1048386555, 6762098351, 6550669089],
        x: 1350317716114554168,
        n: 18446744073709551615,
        values: [8117461925, 6784695538, 6312222871, 1332766387, 5486108154],
    },
    Row {
        bits: 33,
        left: [1795823848, 7546862847, 6395047810],
        right: [2869965264, 5642502604, 7281238159, 6847766477],
        x: 14700062396717990683,
        n: 0,
        values: [7809489021, 1065628907, 285183336, 6743860114, 3181878975],
    },
    Row {
        bits: 64,
        left: [
            1199037988655718682,
            12940243841829388815,
            15161836149580074803,
        ],
        right: [
            13219449544881422511,
            12334465609073234568,
            17351903399058517767,
            9107028356925881720,
        ],
        x: 14171397293061469947,
        n: 3,
        values: [
            16124433163588761509,
            14876517777006721487,
            12554206866885931380,
            1247915386582040022,
            3701341821219650411,
        ],
    },
    Row {
        bits: 64,
        left: [
            4567687427430638054,
            1486462649697505340,
            16295555454969345823,
        ],
        right: [
            18197105775792414541,
            16310478767254859812,
            4256614131218374493,
            3250643386993900586,
        ],
        x: 12147488615959725686,
        n: 0,
        values: [
            16550698231007249417,
            11897850318042588611,
            10001804475340286412,
            4652847912964660806,
            9562966325620056027,
        ],
    },
];

#[test]
fn values_of_random_expressions(rt: HostRuntime) -> Result<(), Fail> {
    let alloc = rt.alloc();
    values_of_sums();
    for row in &ROWS {
        let Some(w) = Width::new(row.bits) else {
            continue;
        };
        let x = sym(alloc, w, Label(5))?;
        let a = add(
            alloc,
            &times(alloc, &chain(alloc, w, Label(4), &row.left)?, &x)?,
            &num(w, 5),
        )?;
        let b = add(alloc, &chain(alloc, w, Label(4), &row.right)?, &x)?;
        let results = [
            add(alloc, &a, &b)?,
            sub(alloc, &a, &b)?,
            times(alloc, &a, &b)?,
        ];
        assert_eq!(rt;
            (valued(&a, row), valued(&b, row)),
            (row.values[0], row.values[1])
        );
        for (k, r) in results.iter().enumerate() {
            assert_eq!(rt; valued(r, row), row.values[k + 2], "place {k}");
        }
    }
    Ok(())
}

fn valued(e: &Expr, row: &Row) -> u64 {
    if is_within(e) {
        value(e, &[(Label(5), row.x)], &[(Label(4), row.n)])
    } else {
        0
    }
}
