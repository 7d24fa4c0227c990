ghost use Rattle.std.specs.Prelude.{◌≡◌, ℕ, true};
ghost use Rattle.arith_word.specs.declared.op.Pred.{Pred as Predicate};
ghost use Rattle.scev_tree.specs.Polynomial.{Under};
ghost use Rattle.scev_tree.specs.Tree.{polynomial_of};
ghost use Rattle.scev_tree.specs.declared.expr.Expr.{Expr as Expression};
ghost use Rattle.trip_count.specs.Failing.{FailsAt, IsLeastNumber, value_of, guarded_value, compares};
ghost use Rattle.trip_count.specs.Guard.{IsGuard};
ghost use Rattle.trip_count.specs.Turns.{IsTest, AreTurns};
ghost use Rattle.trip_count.specs.declared.answer.Turns.TheVariants.{Count, Never, Exactly, Guarded};
ghost use Rattle.trip_count.specs.declared.condition.Test.{Test as Condition};
ghost use Rattle.trip_count.specs.declared.condition.Test.TheVariants.{Compare};

/// The trip count is the least iteration in which the test is false, over all iterations and with
/// wraps, whatever the numbers of the symbols. There is nothing to do: the contract is the law.
pub fn trip_counts_are_least_exits()
    ensures count { (env : ℕ → ℕ) (x n : ℕ) (test : Condition) → IsTest test
        → AreTurns x test (Count n) → IsLeastNumber (FailsAt env x test) n }
    ensures never { (env : ℕ → ℕ) (x k : ℕ) (test : Condition) → IsTest test
        → AreTurns x test Never → FailsAt env x test k → ⊥ }
    ensures exactly { (env : ℕ → ℕ) (x : ℕ) (test : Condition) (e : Expression) → IsTest test
        → AreTurns x test (Exactly e) → IsLeastNumber (FailsAt env x test) (value_of env e) }
    ensures guarded { (env : ℕ → ℕ) (x : ℕ) (test : Condition) (pred : Predicate)
        (a c e : Expression) → IsTest test → AreTurns x test (Guarded pred a c e)
        → IsLeastNumber (FailsAt env x test) (guarded_value env pred a c e) }
{}

/// The expressions of a trip count have no variable from the counter on.
pub fn symbolic_counts_are_invariant()
    ensures exactly { (x : ℕ) (test : Condition) (e : Expression) → IsTest test
        → AreTurns x test (Exactly e) → Under (polynomial_of e.tree) x }
    ensures guard { (x : ℕ) (test : Condition) (pred : Predicate) (a c e : Expression)
        → IsTest test → AreTurns x test (Guarded pred a c e)
        → Under (polynomial_of a.tree) x × Under (polynomial_of c.tree) x }
    ensures guarded { (x : ℕ) (test : Condition) (pred : Predicate) (a c e : Expression)
        → IsTest test → AreTurns x test (Guarded pred a c e) → Under (polynomial_of e.tree) x }
{}

/// A test that is the guard of a trip count is true exactly where the guard holds. There the trip
/// count is the value of the expression.
pub fn guards_hold_with_their_tests()
    ensures holds { (env : ℕ → ℕ) (pred p : Predicate) (a c e l r d : Expression)
        → IsTest (Compare p l r d) → IsGuard (Guarded pred a c e) (Compare p l r d)
        → compares env p l r ≡ compares env pred a c }
    ensures count { (env : ℕ → ℕ) (x : ℕ) (test : Condition) (pred p : Predicate)
        (a c e l r d : Expression) → IsTest test → AreTurns x test (Guarded pred a c e)
        → IsTest (Compare p l r d) → IsGuard (Guarded pred a c e) (Compare p l r d)
        → compares env p l r ≡ true → IsLeastNumber (FailsAt env x test) (value_of env e) }
{}
