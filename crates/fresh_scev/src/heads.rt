ghost use Rattle.std.specs.Prelude.{◌≡◌};
ghost use Rattle.mlir_ir.specs.View.{view_for, view_while};
ghost use Rattle.mlir_ir.specs.declared.types.ForParts.{out-ForParts};
ghost use Rattle.mlir_ir.specs.declared.types.WhileParts.{out-WhileParts};
ghost use Rattle.fresh_scev.specs.Heads.{for_of, while_of};

use arith_word::Label;
use mlir_ir::{Arg, ForParts, WhileParts};
use scev_tree::Expr;

/// The arguments of a loop in a round: their own symbols, or what the round before made of them.
#[derive(Drop)]
pub(crate) enum Arguments {
    Own,
    Given(Vec<Expr>),
}

/// An `scf.for` without its body, with the label of its counter.
#[derive(Clone, Copy)]
pub(crate) struct ForHead<'a> {
    pub counter: Label,
    pub lower: Label,
    pub upper: Label,
    pub step: Label,
    pub iv: &'a Arg,
    pub args: &'a [Arg],
    pub inits: &'a [Label],
}

/// An `scf.while` without its regions, with the label of its counter. `params` are those of its
/// after region.
#[derive(Clone, Copy)]
pub(crate) struct WhileHead<'a> {
    pub counter: Label,
    pub cond: Label,
    pub args: &'a [Arg],
    pub inits: &'a [Label],
    pub params: &'a [Arg],
}

/// An `scf.for` with that counter.
#[tactic(auto, using(mlir_ir::proofs::PartViews::for_view))]
pub(crate) fn for_head<'a>(counter: Label, parts: &'a ForParts) -> ForHead<'a>
    ensures counter { result.counter ≡ counter }
    ensures parts { for_of result (out-ForParts parts.now).body ≡ view_for parts.now }
{
    ForHead {
        counter,
        lower: parts.lower,
        upper: parts.upper,
        step: parts.step,
        iv: &parts.iv,
        args: parts.args.as_slice(),
        inits: parts.inits.as_slice(),
    }
}

/// An `scf.while` with that counter.
#[tactic(auto, using(mlir_ir::proofs::PartViews::while_view))]
pub(crate) fn while_head<'a>(counter: Label, parts: &'a WhileParts) -> WhileHead<'a>
    ensures counter { result.counter ≡ counter }
    ensures parts { while_of result (out-WhileParts parts.now).before
        (out-WhileParts parts.now).after
        ≡ view_while parts.now }
{
    WhileHead {
        counter,
        cond: parts.cond,
        args: parts.args.as_slice(),
        inits: parts.inits.as_slice(),
        params: parts.after_args.as_slice(),
    }
}
