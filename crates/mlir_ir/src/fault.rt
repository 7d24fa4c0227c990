ghost use Rattle.std.specs.Prelude.{◌≡◌, OnOk, IsTrue};
ghost use Rattle.std.specs.Result.{result_err};
ghost use Rattle.mlir_ir.specs.Check.{first, breaks_at};

use crate::rules::Rules;
use crate::shape::{Shape, ShapeFault};
use arith_word::Label;

/// The first break of one place, before which `at` is the last label.
pub(crate) fn keep(at: u32, rules: Rules) -> Result<(), Shape>
    ensures found { first (breaks_at at rules) ≡ result_err result }
    ensures kept { OnOk result (IsTrue rules.sized) }
{
    let at = Label(at);
    if !rules.in_scope {
        return Err(Shape {
            at,
            fault: ShapeFault::Use,
        });
    }
    if !rules.typed {
        return Err(Shape {
            at,
            fault: ShapeFault::WrongType,
        });
    }
    if !rules.counted {
        return Err(Shape {
            at,
            fault: ShapeFault::Count,
        });
    }
    if !rules.sized {
        return Err(Shape {
            at,
            fault: ShapeFault::Size,
        });
    }
    Ok(())
}
