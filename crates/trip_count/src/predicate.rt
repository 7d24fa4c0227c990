ghost use Rattle.std.specs.Prelude.{◌≡◌, ◌^◌, ◌-◌};
ghost use Rattle.trip_count.specs.Predicate.{swapped as swapped_of, is_equality as equality_of, is_ne as ne_of, is_less as less_of, is_unit_step as unit_step_of};

use arith_word::{Pred, Width};

/// The predicate that holds of two sides exactly where `pred` holds of them the other way round.
pub fn swapped(pred: Pred) -> Pred
    ensures { result ≡ swapped_of pred }
{
    match pred {
        Pred::Eq => Pred::Eq,
        Pred::Ne => Pred::Ne,
        Pred::Slt => Pred::Sgt,
        Pred::Sle => Pred::Sge,
        Pred::Sgt => Pred::Slt,
        Pred::Sge => Pred::Sle,
        Pred::Ult => Pred::Ugt,
        Pred::Ule => Pred::Uge,
        Pred::Ugt => Pred::Ult,
        Pred::Uge => Pred::Ule,
    }
}

pub(crate) fn is_equality(pred: Pred) -> bool
    ensures { result ≡ equality_of pred }
{
    matches!(pred, Pred::Eq | Pred::Ne)
}

pub(crate) fn is_ne(pred: Pred) -> bool
    ensures { result ≡ ne_of pred }
{
    matches!(pred, Pred::Ne)
}

pub(crate) fn is_less(pred: Pred) -> bool
    ensures { result ≡ less_of pred }
{
    matches!(pred, Pred::Slt | Pred::Ult)
}

// Whether a left side with the step s goes by one towards the bound of a strict order.
pub(crate) fn is_unit_step(w: Width, pred: Pred, s: u64) -> bool
    ensures { result ≡ unit_step_of w pred s }
{
    match pred {
        Pred::Slt | Pred::Ult => s == 1,
        Pred::Sgt | Pred::Ugt => s == w.mask(),
        _ => false,
    }
}
