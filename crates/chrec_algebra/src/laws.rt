ghost use Rattle.std.specs.Prelude.{◌≡◌, ℕ, ◌+◌, ◌-◌, ◌*◌, ◌%◌, ◌<◌};
ghost use Rattle.chrec_algebra.specs.Limits.{IsWithin};
ghost use Rattle.chrec_algebra.specs.Line.{IsLine, IsPart};
ghost use Rattle.chrec_algebra.specs.Place.{IsAt};
ghost use Rattle.chrec_algebra.specs.Product.{IsProduct};
ghost use Rattle.chrec_algebra.specs.Sum.{IsSum, IsDifference, IsNegated, IsTruncated};
ghost use Rattle.scev_tree.specs.Polynomial.{Polynomial, num, variable, IsCanonical, IsScaled};
ghost use Rattle.scev_tree.specs.Value.{value, with_value};

/// The values of sums and differences are the sums and differences of the values, modulo M and
/// whatever the numbers of the variables. There is nothing to do: the contract is the law.
pub fn values_of_sums()
    ensures sum { (env : ℕ → ℕ) (M : ℕ) (r a b : Polynomial) → IsCanonical M a → IsCanonical M b
        → IsSum M r a b → value env r % M ≡ (value env a + value env b) % M }
    ensures difference { (env : ℕ → ℕ) (M : ℕ) (r a b : Polynomial) → 0 < M → IsCanonical M a
        → IsCanonical M b → IsDifference M r a b
        → value env r % M ≡ (value env a + (M - value env b % M)) % M }
    ensures negation { (env : ℕ → ℕ) (M : ℕ) (r a : Polynomial) → 0 < M → IsCanonical M a
        → IsNegated M r a → value env r % M ≡ (M - value env a % M) % M }
{}

/// The value of a product is the product of the values.
pub fn values_of_products()
    ensures { (env : ℕ → ℕ) (M : ℕ) (r a b : Polynomial) → IsCanonical M a → IsCanonical M b
        → IsProduct M r a b → value env r % M ≡ (value env a * value env b) % M }
{}

/// The value of a multiple is the multiple of the value, and that of a truncation the value modulo
/// the lesser modulus.
pub fn values_of_multiples()
    ensures multiple { (env : ℕ → ℕ) (M K c : ℕ) (r a : Polynomial) → IsCanonical K a
        → IsScaled M c r a → value env r % M ≡ (c * value env a) % M }
    ensures truncation { (env : ℕ → ℕ) (M K : ℕ) (r a : Polynomial) → IsCanonical K a
        → IsTruncated M r a → value env r % M ≡ value env a % M }
{}

/// The value where n stands in place of a counter is the value where that counter is n.
pub fn values_of_replacements()
    ensures { (env : ℕ → ℕ) (M x n : ℕ) (r a : Polynomial) → x % 2 ≡ 0 → IsCanonical M a
        → IsWithin a → IsAt M x n r a → value env r % M ≡ value (with_value env x n) a % M }
{}

/// The value of a line in the iteration n is the base's value plus n times the slope's.
pub fn lines_have_values()
    ensures { (env : ℕ → ℕ) (M x n : ℕ) (base slope a : Polynomial)
        → IsCanonical M a → IsLine M x base slope a
        → value (with_value env x n) a ≡ value env base + value env slope * n }
{}

/// Numbers and variables alone are within the limits.
pub fn leaves_are_within_limits()
    ensures number { (v : ℕ) → IsWithin (num v) }
    ensures variable { (x : ℕ) → IsWithin (variable x) }
{}

/// Each operation has one result at most.
pub fn results_are_unique()
    ensures sum { (M : ℕ) (r s a b : Polynomial) → IsSum M r a b → IsSum M s a b → r ≡ s }
    ensures difference { (M : ℕ) (r s a b : Polynomial) → IsDifference M r a b
        → IsDifference M s a b → r ≡ s }
    ensures product { (M : ℕ) (r s a b : Polynomial) → IsProduct M r a b → IsProduct M s a b
        → r ≡ s }
    ensures multiple { (M c : ℕ) (r s a : Polynomial) → IsScaled M c r a → IsScaled M c s a
        → r ≡ s }
    ensures truncation { (M : ℕ) (r s a : Polynomial) → IsTruncated M r a → IsTruncated M s a
        → r ≡ s }
    ensures replacement { (M x n : ℕ) (r s a : Polynomial) → IsAt M x n r a → IsAt M x n s a
        → r ≡ s }
    ensures part { (M x k : ℕ) (r s a : Polynomial) → IsPart M x k r a → IsPart M x k s a → r ≡ s }
{}
