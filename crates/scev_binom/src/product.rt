ghost use Rattle.std.specs.Prelude.{◌≡◌, ℕ, ◌+◌, ◌≤◌};
ghost use Rattle.scev_binom.specs.Binomial.{factorial as factorial_of, factorial_quotient, product_coefficient, IsProductOfBinomials};

const FACTORIALS: [u64; 17] = [
    1,
    1,
    2,
    6,
    24,
    120,
    720,
    5040,
    40320,
    362880,
    3628800,
    39916800,
    479001600,
    6227020800,
    87178291200,
    1307674368000,
    20922789888000,
];

fn factorial(n: u32) -> u64
    requires { n ≤ 16 }
    ensures { result ≡ factorial_of n }
{
    FACTORIALS[n as usize]
}

/// The coefficient of C(n,k) in C(n,i) * C(n,j), for `i` and `j` of at most 8 and `k` from the
/// greater of them to their sum.
pub fn product_coeff(i: u32, j: u32, k: u32) -> u64
    requires left { i ≤ 8 }
    requires right { j ≤ 8 }
    requires from_left { i ≤ k }
    requires from_right { j ≤ k }
    requires to { k ≤ i + j }
    ensures quotient { result ≡ factorial_quotient i j k }
    ensures pascal { result ≡ product_coefficient i j k }
{
    factorial(k) / (factorial(k - i) * factorial(k - j) * factorial(i + j - k))
}

/// The law of products: at every n the product of two binomials is the sum of the binomials with
/// the coefficients that `product_coeff` gives. There is nothing to do: the contract is the law.
pub fn products_of_binomials()
    ensures { (n i j : ℕ) → i ≤ 8 → j ≤ 8 → IsProductOfBinomials n i j }
{}
