ghost use Rattle.std.specs.Prelude.{◌≡◌, ◌%◌, ◌≤◌, ◌^◌};
ghost use Rattle.arith_word.specs.Binomial.{binomial};
ghost use Rattle.scev_binom.specs.Division.{Divides};

use arith_word::Width;

/// How to divide by `k!` modulo a power of 2: by 2 to `twos`, then times the inverse of the odd
/// rest modulo 2^64.
#[derive(Clone, Copy)]
struct Division {
    twos: u32,
    inverse: u64,
}

fn division_of(k: u32) -> Division
    requires { k ≤ 8 }
    ensures { Divides k result.twos result.inverse }
{
    match k {
        0 | 1 => Division {
            twos: 0,
            inverse: 1,
        },
        2 => Division {
            twos: 1,
            inverse: 1,
        },
        3 => Division {
            twos: 1,
            inverse: 12297829382473034411,
        },
        4 => Division {
            twos: 3,
            inverse: 12297829382473034411,
        },
        5 => Division {
            twos: 3,
            inverse: 17216961135462248175,
        },
        6 => Division {
            twos: 4,
            inverse: 5738987045154082725,
        },
        7 => Division {
            twos: 4,
            inverse: 3455104445551947763,
        },
        _ => Division {
            twos: 7,
            inverse: 3455104445551947763,
        },
    }
}

/// C(n,k) modulo 2 to the width, for every `n` and `k` of at most 8.
///
/// The product n * (n - 1) * .. is taken modulo 2^128, so that its 64 bits above the power of 2
/// in `k!` are kept.
pub fn choose(w: Width, n: u64, k: u32) -> u64
    requires { k ≤ 8 }
    ensures { result ≡ binomial n k % 2 ^ w }
{
    if n < u64::from(k) {
        return 0;
    }
    let mut falling: u128 = 1;
    for i in 0..k {
        falling = falling.wrapping_mul(u128::from(n - u64::from(i)));
    }
    let by = division_of(k);
    let quotient = ((falling >> by.twos) & u128::from(u64::MAX)) as u64;
    quotient.wrapping_mul(by.inverse) & w.mask()
}
