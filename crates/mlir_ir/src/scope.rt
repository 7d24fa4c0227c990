ghost use Rattle.std.specs.Prelude.{◌≡◌, ◌++◌};
ghost use Rattle.mlir_ir.specs.Check.{items_results};
ghost use Rattle.arith_word.specs.Labels.{label_at};
ghost use Rattle.mlir_ir.specs.Rules.{has_name};
ghost use Rattle.mlir_ir.specs.Scope.{scope_values};
ghost use Rattle.mlir_ir.specs.Values.{arg_values, type_at};

use crate::lookup::{arg_type, args_name, items_name, ops_name, ops_type};
use crate::outer::Outer;
use crate::types::{Arg, IrType, Op};
use arith_word::Label;

/// The values in scope at a place of a function.
#[derive(Drop)]
pub(crate) enum Scope<'a> {
    Top(Outer<'a>),
    /// Besides those of another scope, arguments from a label on.
    Args(&'a Scope<'a>, u32, &'a [Arg]),
    /// Besides those of another scope, the results of operations from a label on.
    Ops(&'a Scope<'a>, u32, &'a [Op]),
}

impl<'a> Outer<'a> {
    /// The type of the value with that label, found at the place of its item.
    #[tactic(auto, using(crate::proofs::TypeAtTop::top_other, crate::proofs::TypeAtTop::top_arg, crate::proofs::TypeAtTop::top_item, crate::proofs::TypeAtTop::top_behind))]
    fn type_of(&self, label: u32) -> Option<IrType>
        ensures { result ≡ type_at (arg_values (label_at self.now.func 0 0) self.now.args.now
            ++ items_results self.now.func 1 self.now.items.now) label }
    {
        let place = Label(label);
        if place.func() != self.func {
            return None;
        }
        let number = place.item();
        let begin = Label::new(self.func, number, 0).0;
        if number == 0 {
            return arg_type(begin, self.args, label);
        }
        if number <= self.items.len() {
            ops_type(begin, self.items[number - 1].ops.as_slice(), label)
        } else {
            None
        }
    }

    #[tactic(auto, using(crate::proofs::NameAt::has_name_append, crate::proofs::NameAt::has_name_args, crate::proofs::NameAt::has_name_items))]
    fn has_name(&self, name: &[u8]) -> bool
        ensures { result ≡ has_name (arg_values (label_at self.now.func 0 0) self.now.args.now
            ++ items_results self.now.func 1 self.now.items.now) name.now }
    {
        args_name(self.args, name) || items_name(self.items, name)
    }
}

impl<'a> Scope<'a> {
    /// The type of the value with that label, where it is in scope.
    #[tactic(auto, using(crate::proofs::TypeAt::type_at_append))]
    pub(crate) fn type_of(&self, label: u32) -> Option<IrType>
        ensures { result ≡ type_at (scope_values self.now) label }
    {
        match self {
            Scope::Top(outer) => outer.type_of(label),
            Scope::Args(outer, at, args) => match outer.type_of(label) {
                Some(ty) => Some(ty),
                None => arg_type(*at, args, label),
            },
            Scope::Ops(outer, at, ops) => match outer.type_of(label) {
                Some(ty) => Some(ty),
                None => ops_type(*at, ops, label),
            },
        }
    }

    /// Whether a value in scope has that name.
    #[tactic(auto, using(crate::proofs::NameAt::has_name_append, crate::proofs::NameAt::has_name_args, crate::proofs::NameAt::has_name_ops))]
    pub(crate) fn has_name(&self, name: &[u8]) -> bool
        ensures { result ≡ has_name (scope_values self.now) name.now }
    {
        match self {
            Scope::Top(outer) => outer.has_name(name),
            Scope::Args(outer, _, args) => outer.has_name(name) || args_name(args, name),
            Scope::Ops(outer, _, ops) => outer.has_name(name) || ops_name(ops, name),
        }
    }
}
