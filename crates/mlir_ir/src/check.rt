ghost use Rattle.std.specs.Prelude.{◌≡◌, ◌+◌, ◌*◌, ◌-◌, ◌<◌, ◌≤◌, ℕ, ◌^◌, ◌++◌, [], length, nat_le, IfOk, OnOk, IsFalse, MatchResult, Some};
ghost use Rattle.std.specs.Result.{result_err};
ghost use Rattle.mlir_ir.specs.Check as spec;
ghost use Rattle.mlir_ir.specs.Limits.{arg_limit, label_limit, region_limit};
ghost use Rattle.mlir_ir.specs.Outer.{KeepsLabels};
ghost use Rattle.mlir_ir.specs.Scope.{scope_values};
ghost use Rattle.mlir_ir.specs.Within.{ops_labels_within};

use crate::args::check_args;
use crate::fault::keep;
use crate::keeps::{head_rules, op_rules, return_rules};
use crate::limits::{ITEM_LIMIT, LABEL_LIMIT, REGION_LIMIT};
use crate::outer::Outer;
use crate::rules::{Nest, Position};
use crate::scope::Scope;
use crate::shape::Shape;
use crate::types::{Body, Func, Item, Op};
use crate::walk::check_ops;
use crate::within::skip_ops_within;
use arith_word::Label;

/// Whether operations take few enough labels for one item, in the regions that may be open.
fn are_few(ops: &[Op]) -> bool
    ensures { result ≡ nat_le (ops_labels_within (region_limit - 1) ops.now) label_limit }
{
    skip_ops_within(ops, REGION_LIMIT - 1, LABEL_LIMIT).is_some()
}

/// The first break of an item that passes a limit: one of its first operation, where it has one,
/// whatever its labels begin with.
fn check_excess(scope: &Scope, nest: Nest, at: Position, ops: &[Op]) -> Result<(), Shape>
    requires { IsFalse nest.item_fits }
    ensures found { (func k : ℕ) → spec.first (spec.ops_breaks (scope_values scope.now) nest
        (spec.at_item func k at) ops.now) ≡ result_err result }
    ensures none { OnOk result (ops.now ≡ []) }
{
    if ops.is_empty() {
        return Ok(());
    }
    keep(at.last, op_rules(scope, nest, at, &ops[0]))
}

/// The position past an item, of which the last label and the number of operations count, or its
/// first break.
fn check_item(
    scope: &Scope,
    func: u8,
    number: usize,
    at: Position,
    item: &Item,
) -> Result<Position, Shape>
    ensures found { spec.first (spec.ops_breaks (scope_values scope.now)
        (spec.in_item number item.now) (spec.at_item func number at) item.now.ops)
        ≡ result_err result }
    ensures last { IfOk result (λ behind. behind.last
        ≡ (spec.past_ops item.now.ops (spec.at_item func number at)).last) }
    ensures ops { IfOk result (λ behind. behind.ops
        ≡ (spec.past_ops item.now.ops (spec.at_item func number at)).ops) }
    ensures few { OnOk result (KeepsLabels number item.now) }
{
    let ops = item.ops.as_slice();
    let nest = Nest {
        regions: 1,
        loops: 0,
        item_fits: number <= ITEM_LIMIT && are_few(ops),
    };
    if nest.item_fits {
        let begin = Position {
            next: Label::new(func, number, 0).0,
            last: at.last,
            ops: at.ops,
        };
        Ok(check_ops(scope, nest, begin, ops)?)
    } else {
        check_excess(scope, nest, at, ops)?;
        Ok(at)
    }
}

/// The first break of a function's items and its return.
fn check_body(func: &Func, body: &Body, at: Position) -> Result<(), Shape>
    requires few { length func.now.args ≤ arg_limit }
    requires begin { at ≡ spec.past_args func.now.args (spec.func_begin func.now) }
    ensures { spec.first (spec.body_breaks func.now (Some body.now)) ≡ result_err result }
{
    let args = func.args.as_slice();
    let items = body.items.as_slice();
    let mut behind = at;
    for (k, item) in items.iter().enumerate() {
        let outer = Outer {
            func: func.index,
            args,
            items: &items[..k],
        };
        behind = check_item(&Scope::Top(outer), func.index, k + 1, behind, item)?;
    }
    let outer = Outer {
        func: func.index,
        args,
        items,
    };
    let results = func.results.as_slice();
    let ret = body.ret.as_slice();
    keep(
        behind.last,
        return_rules(&Scope::Top(outer), results, items.len(), ret),
    )
}

impl Func {
    /// Whether the function is well formed: `Ok` exactly where no rule is broken, else the first
    /// break in the order of labels, which is that of the text. Takes no memory.
    ///
    /// # Errors
    ///
    /// The first [`Shape`]: its fault, and the last label that is given before the place of the
    /// break.
    #[tactic(auto, using(crate::proofs::ListedBreaks::first_append, crate::proofs::ListedBreaks::first_none))]
    pub fn check(&self) -> Result<(), Shape>
        ensures { MatchResult result (λ _. spec.IsWellFormed self.now)
            (λ shape. spec.first (spec.breaks self.now) ≡ Some shape) }
    {
        let base = Label::new(self.index, 0, 0).0;
        let begin = Position {
            next: base,
            last: base,
            ops: 0,
        };
        keep(base, head_rules(self))?;
        let outside = Scope::Top(Outer {
            func: self.index,
            args: &[],
            items: &[],
        });
        let behind = check_args(
            &outside,
            self.body.is_none(),
            &[],
            begin,
            self.args.as_slice(),
        )?;
        match &self.body {
            None => Ok(()),
            Some(body) => Ok(check_body(self, body, behind)?),
        }
    }
}
