ghost use Rattle.std.specs.Prelude.{◌≡◌, ℕ, ◌+◌, ◌*◌, ◌%◌, ◌<◌};
ghost use Rattle.phi_solve.specs.Step.{IsStep, IsChain};
ghost use Rattle.scev_tree.specs.Polynomial.{Polynomial, Under, IsCanonical};
ghost use Rattle.scev_tree.specs.Value.{value, with_value};

/// At turn 0 the chain has the initial value, whatever the numbers of the other variables. There is
/// nothing to do: the contract is the law.
pub fn chains_begin()
    ensures { (env : ℕ → ℕ) (M x : ℕ) (r init p : Polynomial) → x % 2 ≡ 0
        → IsCanonical M init → Under init x → IsCanonical M p → Under p (x + 1)
        → IsChain M x r init p
        → value (with_value env x 0) r ≡ value env init }
{}

/// From any turn n to the next the chain grows by what p is in turn n.
pub fn chains_grow()
    ensures { (env : ℕ → ℕ) (M x n : ℕ) (r init p : Polynomial) → x % 2 ≡ 0
        → IsCanonical M init → Under init x → IsCanonical M p → Under p (x + 1)
        → IsChain M x r init p
        → value (with_value env x (n + 1)) r
        ≡ value (with_value env x n) r + value (with_value env x n) p }
{}

/// With a step that doesn't know the counter the chain in iteration n is the initial value plus n
/// times the step.
pub fn chains_of_fixed_steps()
    ensures { (env : ℕ → ℕ) (M x n : ℕ) (r init p : Polynomial) → x % 2 ≡ 0
        → IsCanonical M init → Under init x → IsCanonical M p → Under p x
        → IsChain M x r init p
        → value (with_value env x n) r ≡ value env init + value env p * n }
{}

/// The value of what is yielded is the number of the argument plus the value of the step.
pub fn yields_are_sums()
    ensures { (env : ℕ → ℕ) (M arg x : ℕ) (yielded p : Polynomial) → 1 < M → x < arg
        → IsCanonical M yielded → IsStep M arg x yielded p
        → value env yielded ≡ env arg + value env p }
{}

/// A yielded value has one step at most, and an initial value and a step have one chain at most.
pub fn steps_and_chains_are_unique()
    ensures step { (M arg x : ℕ) (yielded p q : Polynomial) → 0 < M
        → IsStep M arg x yielded p → IsStep M arg x yielded q → p ≡ q }
    ensures chain { (M x : ℕ) (r s init p : Polynomial) → IsChain M x r init p → IsChain M x s init p → r ≡ s }
{}
