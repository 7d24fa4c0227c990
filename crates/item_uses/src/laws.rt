ghost use Rattle.std.specs.Prelude.{◌≡◌, ◌↔◌, ◌<◌, ◌≤◌, ℕ, IsTrue, false, length};
ghost use Rattle.std.specs.List.{All};
ghost use Rattle.arith_word.specs.Labels.{func_of};
ghost use Rattle.arith_word.specs.declared.label.Label.{Label};
ghost use Rattle.mlir_ir.specs.Check.{IsWellFormed};
ghost use Rattle.mlir_ir.specs.declared.types.Func.{Func};
ghost use Rattle.item_uses.specs.Uses.{AreClosed, Depends, affected_items, is_marked, used_items};
ghost use Rattle.item_uses.specs.Uses.{func_items, item_at, ops_uses, uses_item};

/// The items of a well-formed function use values of the function alone: of its arguments, of earlier
/// items, and of their own. There is nothing to do: the contract is the law.
pub fn uses_go_back()
    ensures own { (f : Func) (n : ℕ) → IsWellFormed f
        → All (λ (label : Label). func_of label.0 ≡ f.index)
        (ops_uses (item_at (func_items f) n)) }
    ensures back { (f : Func) (n m : ℕ) → IsWellFormed f
        → IsTrue (uses_item (item_at (func_items f) n) m) → m ≤ n }
{}

/// The items that are affected are those that depend on the given one: a chain of items goes from it
/// to each, of which each uses a value of the one before. There is an entry for each item.
pub fn affected_items_depend()
    ensures entries { (f : Func) (item : ℕ)
        → length (affected_items f item) ≡ length (func_items f) }
    ensures depend { (f : Func) (item n : ℕ) → IsWellFormed f
        → 0 < item → item ≤ length (func_items f)
        → IsTrue (is_marked (affected_items f item) n) ↔ Depends (func_items f) item n }
    ensures arguments { (f : Func) (n : ℕ) → is_marked (affected_items f 0) n ≡ false }
{}

/// The items that are used are those on which the given one depends, by the same chains; so they have
/// all items that they use among them. There is an entry for each item.
pub fn used_items_are_depended_on()
    ensures entries { (f : Func) (item : ℕ)
        → length (used_items f item) ≡ length (func_items f) }
    ensures depend { (f : Func) (item n : ℕ) → IsWellFormed f
        → 0 < item → item ≤ length (func_items f) → 0 < n
        → IsTrue (is_marked (used_items f item) n) ↔ Depends (func_items f) n item }
    ensures closed { (f : Func) (item : ℕ) → IsWellFormed f → AreClosed (used_items f item) f }
    ensures arguments { (f : Func) (n : ℕ) → is_marked (used_items f 0) n ≡ false }
{}
