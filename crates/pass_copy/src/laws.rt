ghost use Rattle.std.specs.Prelude.{◌≡◌, ℕ, ◌^◌, ◌<◌, true, false};
ghost use Rattle.mlir_ir.specs.Check.{IsWellFormed};
ghost use Rattle.mlir_ir.specs.Limits.{label_limit};
ghost use Rattle.mlir_ir.specs.Names.{is_name};
ghost use Rattle.mlir_ir.specs.declared.types.Func.{Func};
ghost use Rattle.pass_copy.specs.Fresh.{free_number, fresh_names, is_taken, value_names};
ghost use Rattle.pass_copy.specs.Meaning.{HasSameMeaning};

/// A function means what it does itself. There is nothing to do: the contract is the law.
#[tactic(auto, using(crate::proofs::SameMeaning::means_itself))]
pub fn functions_mean_themselves()
    ensures { (f : Func) → HasSameMeaning f f }
{}

/// The fresh names of a function are well formed, no value of the function has one, and they differ.
/// Their numbers rise; those of a well-formed function have 64 bits as far as the labels of an item
/// go. There is nothing to do: the contract is the law.
#[tactic(auto, using(crate::proofs::FreshNames::fresh_named, crate::proofs::FreshNames::fresh_free, crate::proofs::FreshNames::fresh_rise, crate::proofs::FreshNames::fresh_differ, crate::proofs::TypedChildren::fresh_low))]
pub fn fresh_names_are_free()
    ensures named { (f : Func) (k : ℕ) → free_number (value_names f) k < 2 ^ 64
        → is_name (fresh_names f k) ≡ true }
    ensures free { (f : Func) (k : ℕ) → free_number (value_names f) k < 2 ^ 64
        → is_taken (value_names f) (free_number (value_names f) k) ≡ false }
    ensures rise { (f : Func) (i j : ℕ) → i < j
        → free_number (value_names f) i < free_number (value_names f) j }
    ensures differ { (f : Func) (i j : ℕ) → i < j → free_number (value_names f) j < 2 ^ 64
        → fresh_names f i ≡ fresh_names f j → ⊥ }
    ensures low { (f : Func) → IsWellFormed f → (k : ℕ) → k < label_limit
        → free_number (value_names f) k < 2 ^ 64 }
{}
