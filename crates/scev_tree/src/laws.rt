ghost use Rattle.std.specs.Prelude.{◌≡◌, ℕ, ◌<◌, ◌≤◌, List};
ghost use Rattle.scev_tree.specs.Measure.{monomials, total_degree};
ghost use Rattle.scev_tree.specs.Polynomial.{Polynomial, Power, num as number, variable, coefficient, IsMonomial, IsCanonical, Under};
ghost use Rattle.scev_tree.specs.Standing.{Stands, HasTree};
ghost use Rattle.scev_tree.specs.Support.{degree_of, HasMonomials, HasDegree};
ghost use Rattle.scev_tree.specs.Value.{value};

/// The value of a polynomial depends on the numbers of its variables alone. There is nothing to do:
/// the contract is the law.
pub fn values_depend_on_variables()
    ensures standing { (s t : ℕ → ℕ) (p : Polynomial)
        → ((x : ℕ) → Stands x p → s x ≡ t x)
        → value s p ≡ value t p }
    ensures below { (s t : ℕ → ℕ) (M top : ℕ) (p : Polynomial) → IsCanonical M p → Under p top
        → ((x : ℕ) → x < top → s x ≡ t x)
        → value s p ≡ value t p }
    ensures bound { (M top x : ℕ) (p : Polynomial) → IsCanonical M p → Under p top → Stands x p
        → x < top }
{}

/// A number is its value, and a variable alone has the number of the variable.
pub fn values_of_leaves()
    ensures number { (s : ℕ → ℕ) (v : ℕ) → value s (number v) ≡ v }
    ensures variable { (s : ℕ → ℕ) (x : ℕ) → value s (variable x) ≡ s x }
{}

/// Each polynomial is that of a tree.
pub fn polynomials_have_trees()
    ensures { (p : Polynomial) → HasTree p }
{}

/// The size is the number of monomials whose coefficient isn't 0, and the degree the greatest
/// degree of one of these.
pub fn sizes_are_those_of_coefficients()
    ensures size { (M top : ℕ) (p : Polynomial) → IsCanonical M p → Under p top
        → HasMonomials top p (monomials p) }
    ensures bound { (M top : ℕ) (p : Polynomial) (m : List Power) → IsCanonical M p → Under p top
        → IsMonomial m top → 0 < coefficient p m
        → degree_of m ≤ total_degree p }
    ensures reached { (M top : ℕ) (p : Polynomial) → IsCanonical M p → Under p top
        → (p ≡ number 0 → ⊥) → HasDegree top p (total_degree p) }
{}
