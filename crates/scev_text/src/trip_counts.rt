ghost use Rattle.std.specs.Prelude.{◌≡◌, ◌++◌, codes, OnOk, string_bytes};
ghost use Rattle.scev_text.specs.Texts.{expr_text, reason_text, relation_text, turns_text};

use crate::expressions::push_expr;
use crate::naming::ValueNames;
use arith_word::Pred;
use scev_tree::Expr;
use std::alloc::AllocError;
use trip_count::{Turns, Why};

/// Adds the text of a trip count.
pub fn push_turns(out: &mut String, names: &ValueNames<'_>, t: &Turns) -> Result<(), AllocError>
    ensures { OnOk result (string_bytes out.new
        ≡ string_bytes out.old ++ turns_text names.now t.now) }
{
    match t {
        Turns::Count(n) => write!(out, "{n}"),
        Turns::Never => write!(out, "never"),
        Turns::Exactly(e) => push_exactly(out, names, e),
        Turns::Guarded { pred, a, c, e } => push_guarded(out, names, *pred, a, c, e),
        Turns::Unknown(why) => push_unknown(out, *why),
    }
}

/// Adds the trip count that an expression is.
fn push_exactly(out: &mut String, names: &ValueNames<'_>, e: &Expr) -> Result<(), AllocError>
    ensures { OnOk result (string_bytes out.new
        ≡ string_bytes out.old ++ (codes "exactly " ++ expr_text names.now e.now)) }
{
    write!(out, "exactly ")?;
    push_expr(out, names, e)
}

/// Adds the trip count that is the expression `e` where `pred(a, c)` holds, else 0.
fn push_guarded(
    out: &mut String,
    names: &ValueNames<'_>,
    pred: Pred,
    a: &Expr,
    c: &Expr,
    e: &Expr,
) -> Result<(), AllocError>
    ensures { OnOk result (string_bytes out.new
        ≡ string_bytes out.old
        ++ (codes "(" ++ expr_text names.now a.now ++ codes " " ++ relation_text pred
        ++ codes " " ++ expr_text names.now c.now ++ codes ") ? "
        ++ expr_text names.now e.now ++ codes " : 0")) }
{
    let relation = relation_word(pred);
    write!(out, "(")?;
    push_expr(out, names, a)?;
    write!(out, " {relation} ")?;
    push_expr(out, names, c)?;
    write!(out, ") ? ")?;
    push_expr(out, names, e)?;
    write!(out, " : 0")
}

/// The sign of a guard's predicate; nothing for a predicate that no guard has.
fn relation_word(pred: Pred) -> &'static str
    ensures { result.now ≡ relation_text pred }
{
    match pred {
        Pred::Slt => "<s",
        Pred::Ult => "<u",
        Pred::Sgt => ">s",
        Pred::Ugt => ">u",
        _ => "",
    }
}

/// Adds that a trip count isn't known, and why.
fn push_unknown(out: &mut String, why: Why) -> Result<(), AllocError>
    ensures { OnOk result (string_bytes out.new
        ≡ string_bytes out.old ++ (codes "unknown: " ++ reason_text why)) }
{
    let reason = reason_word(why);
    write!(out, "unknown: {reason}")
}

/// Why a trip count isn't known, in words.
fn reason_word(why: Why) -> &'static str
    ensures { result.now ≡ reason_text why }
{
    match why {
        Why::NotACompare => "not a compare",
        Why::Moving => "moving",
        Why::Symbolic => "symbolic",
    }
}
