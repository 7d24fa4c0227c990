ghost use Rattle.std.specs.Prelude.{◌≡◌, ℕ, List};
ghost use Rattle.std.specs.List.{All};
ghost use Rattle.mlir_ir.specs.Check.{IsWellFormed};
ghost use Rattle.mlir_ir.specs.declared.types.Func.{Func};
ghost use Rattle.scev_script.specs.declared.script.Script.{Script};
ghost use Rattle.scev_server.specs.Output.{IsOutput};

/// A module of well-formed functions and its scripts have one output. There is nothing to do: the
/// contract is the law.
pub fn one_output()
    ensures { (funcs : List Func) (scripts : List Script) (text other : List ℕ)
        → All IsWellFormed funcs → IsOutput funcs scripts text → IsOutput funcs scripts other
        → text ≡ other }
{}
