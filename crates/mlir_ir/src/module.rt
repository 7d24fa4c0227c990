ghost use Rattle.std.specs.Prelude.{◌≡◌, [], ◌∷◌, IfOk};
ghost use Rattle.mlir_ir.specs.Calls.{ArePlaced, AreNamedApart, DoCallsFit, func_calls};

use crate::types::Func;
use arith_word::List;
use std::alloc::{AllocError, Global};

/// The functions of a module, by their places. Each function's index is its place, names of
/// functions differ, and each call fits its callee's types.
#[derive(Debug, Drop)]
pub struct Module {
    pub funcs: List<Func>,
    ghost placed: { ArePlaced funcs },
    ghost apart: { AreNamedApart funcs },
    ghost calls_fit: { DoCallsFit funcs },
}

impl Module {
    /// The module of one function that calls none.
    #[tactic(auto, using(crate::proofs::Alone::placed, crate::proofs::Alone::apart, crate::proofs::Alone::calls_fit))]
    pub fn of_one(alloc: Global, func: Func) -> Result<Module, AllocError>
        requires index { func.index ≡ 0 }
        requires calls { func_calls func ≡ [] }
        ensures { IfOk result (λ whole. whole.funcs ≡ func ∷ []) }
    {
        let mut funcs = Vec::with_capacity(alloc, 1)?;
        match funcs.push(func) {
            Ok(()) => Ok(Module {
                funcs: List::from_vec(funcs),
            }),
            Err(_) => Err(AllocError),
        }
    }
}
