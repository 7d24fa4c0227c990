//! Binomial coefficients modulo 2 to a width, and the coefficients of their products.
#![tactic(auto)]

mod binomial;
mod product;

pub use binomial::choose;
pub use product::{product_coeff, products_of_binomials};

#[cfg(test)]
mod tests {
    use crate::{choose, product_coeff, products_of_binomials};
    use arith_word::Width;

    // For each k from 0 on: n, and C(n,k) modulo 2^1, 2^8, 2^33 and 2^64, from Python's `math.comb`.
    const BINOMIALS: [[(u64, [u64; 4]); 5]; 9] = [
        [
            (0, [1, 1, 1, 1]),
            (0, [1, 1, 1, 1]),
            (0, [1, 1, 1, 1]),
            (9223372036854775808, [1, 1, 1, 1]),
            (18446744073709551615, [1, 1, 1, 1]),
        ],
        [
            (0, [0, 0, 0, 0]),
            (0, [0, 0, 0, 0]),
            (1, [1, 1, 1, 1]),
            (9223372036854775808, [0, 0, 0, 9223372036854775808]),
            (
                18446744073709551615,
                [1, 255, 8589934591, 18446744073709551615],
            ),
        ],
        [
            (0, [0, 0, 0, 0]),
            (1, [0, 0, 0, 0]),
            (2, [1, 1, 1, 1]),
            (9223372036854775808, [0, 0, 0, 13835058055282163712]),
            (18446744073709551615, [1, 1, 1, 9223372036854775809]),
        ],
        [
            (0, [0, 0, 0, 0]),
            (2, [0, 0, 0, 0]),
            (3, [1, 1, 1, 1]),
            (9223372036854775808, [0, 0, 0, 9223372036854775808]),
            (
                18446744073709551615,
                [1, 255, 8589934591, 9223372036854775807],
            ),
        ],
        [
            (0, [0, 0, 0, 0]),
            (3, [0, 0, 0, 0]),
            (4, [1, 1, 1, 1]),
            (9223372036854775808, [0, 0, 0, 16140901064495857664]),
            (18446744073709551615, [1, 1, 1, 4611686018427387905]),
        ],
        [
            (0, [0, 0, 0, 0]),
            (4, [0, 0, 0, 0]),
            (5, [1, 1, 1, 1]),
            (9223372036854775808, [0, 0, 0, 9223372036854775808]),
            (
                18446744073709551615,
                [1, 255, 8589934591, 13835058055282163711],
            ),
        ],
        [
            (0, [0, 0, 0, 0]),
            (5, [0, 0, 0, 0]),
            (6, [1, 1, 1, 1]),
            (9223372036854775808, [0, 0, 0, 4611686018427387904]),
            (18446744073709551615, [1, 1, 1, 13835058055282163713]),
        ],
        [
            (0, [0, 0, 0, 0]),
            (6, [0, 0, 0, 0]),
            (7, [1, 1, 1, 1]),
            (9223372036854775808, [0, 0, 0, 9223372036854775808]),
            (
                18446744073709551615,
                [1, 255, 8589934591, 4611686018427387903],
            ),
        ],
        [
            (0, [0, 0, 0, 0]),
            (7, [0, 0, 0, 0]),
            (8, [1, 1, 1, 1]),
            (9223372036854775808, [0, 0, 0, 17293822569102704640]),
            (18446744073709551615, [1, 1, 1, 11529215046068469761]),
        ],
    ];

    #[test]
    fn binomials_at_four_widths(rt: HostRuntime) {
        for (place, bits) in [1, 8, 33, 64].iter().enumerate() {
            let Some(w) = Width::new(*bits) else {
                continue;
            };
            for (k, rows) in BINOMIALS.iter().enumerate() {
                for (n, expected) in rows {
                    assert_eq!(rt; choose(w, *n, k as u32), expected[place]);
                }
            }
        }
    }

    // The coefficients for k from max(i,j) to i+j, from Python.
    #[test]
    fn coefficients_of_products(rt: HostRuntime) {
        products_of_binomials();
        for (more, expected) in [1, 20, 90, 140, 70].iter().enumerate() {
            assert_eq!(rt; product_coeff(4, 4, 4 + more as u32), *expected);
        }
        for (more, expected) in [56, 252, 360, 165].iter().enumerate() {
            assert_eq!(rt; product_coeff(3, 8, 8 + more as u32), *expected);
        }
        for (more, expected) in [1, 72, 1260, 9240, 34650, 72072, 84084, 51480, 12870]
            .iter()
            .enumerate()
        {
            assert_eq!(rt; product_coeff(8, 8, 8 + more as u32), *expected);
        }
    }
}
