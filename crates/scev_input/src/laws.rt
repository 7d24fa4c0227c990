ghost use Rattle.std.specs.Prelude.{◌≡◌, ℕ, List, map};
ghost use Rattle.mlir_ir.specs.Reads.{plain_func};
ghost use Rattle.mlir_ir.specs.declared.module.Module.{Module};
ghost use Rattle.scev_input.specs.Inputs.{IsFault, IsInput};
ghost use Rattle.scev_input.specs.declared.fault.Fault.{Fault};
ghost use Rattle.scev_script.specs.declared.script.Script.{Script};

/// Bytes are at most one input, as plain functions and scripts, and have at most one first fault;
/// bytes that are an input have none. So the bytes determine the result of `read`, unless memory is
/// refused. There is nothing to do: the contract is the law.
pub fn one_input()
    ensures input { (bytes : List ℕ) (m n : Module) (scripts others : List Script)
        → IsInput bytes m scripts → IsInput bytes n others
        → (map plain_func m.funcs ≡ map plain_func n.funcs) × (scripts ≡ others) }
    ensures fault { (bytes : List ℕ) (e f : Fault) → IsFault bytes e → IsFault bytes f → e ≡ f }
    ensures not_both { (bytes : List ℕ) (m : Module) (scripts : List Script) (e : Fault)
        → IsInput bytes m scripts → IsFault bytes e → ⊥ }
{}
