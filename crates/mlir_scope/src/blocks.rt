ghost use Rattle.std.specs.Prelude.{◌≡◌, ◌||◌, false, map, MatchOption};
ghost use Rattle.mlir_ir.specs.Phrases as phrases;
ghost use Rattle.mlir_ir.specs.Source as source;
ghost use Rattle.mlir_ir.specs.Terminals.{terminal_of};
ghost use Rattle.mlir_ir.specs.declared.syntax.Form.TheVariants as forms;
ghost use Rattle.mlir_scope.specs.Said.{said};
ghost use Rattle.mlir_scope.specs.Blocks.{HasNoRegions, operations, with_operation};

use crate::phrase::{Part, inside, next};
use crate::tokens::is_token;
use mlir_ir::{Branch, Form, Terminal, Token, is_same_form};

/// Operations beside one another: those directly in a body or a region, or those of the region that
/// comes next behind an operation's name.
#[derive(Clone, Copy)]
pub struct Ops<'a> {
    pub parts: &'a [Branch],
    /// Whether the parts are those of the body or the region itself.
    pub direct: bool,
}

/// An operation, with the number of its first token: its packs stand in its parts, and what it does
/// in its kind.
#[derive(Clone, Copy)]
pub struct Operation<'a> {
    pub at: u32,
    pub parts: &'a [Branch],
    pub kind: &'a [Branch],
}

/// Whether another region of the operation begins behind the token.
fn parts_regions(token: &Token) -> bool
    ensures { result ≡ source.parts_regions (terminal_of token.now) }
{
    is_token(token, Terminal::Else) || is_token(token, Terminal::Do)
}

/// Whether a region may stand there. Where none does, the operation has no operations inside.
pub(crate) fn may_have_regions(tokens: &[Token], kind: &[Branch]) -> bool
    ensures { result ≡ false → HasNoRegions (said tokens.now kind.now) }
{
    let mut rest = kind;
    'seek: while let Some((part, behind)) = next(tokens, rest) {
        rest = behind;
        if let Part::Line(form, _, _) = part {
            if is_same_form(Form::Region, form) || is_same_form(Form::Op, form) {
                return true;
            }
        }
    }
    false
}

/// What stands behind the word before the second region; nothing where there is none.
pub fn behind_word<'a>(tokens: &'a [Token], kind: &'a [Branch]) -> &'a [Branch]
    ensures { source.region (said tokens.now result.now)
        ≡ source.region_behind (said tokens.now kind.now) }
{
    let mut rest = kind;
    'seek: while let Some((part, behind)) = next(tokens, rest) {
        rest = behind;
        if let Part::Single(_, token) = part {
            if parts_regions(token) {
                return behind;
            }
        }
    }
    rest
}

/// The first operation of a body or a region, with those behind it.
#[tactic(auto, using(crate::proofs::Blocked::block_op))]
fn next_direct<'a>(tokens: &'a [Token], parts: &'a [Branch]) -> Option<(Operation<'a>, Ops<'a>)>
    ensures { MatchOption result (source.block (said tokens.now parts.now) ≡ source.none)
        (λ r. source.block (said tokens.now parts.now)
        ≡ with_operation tokens.now r.0 (operations tokens.now r.1)) }
{
    let mut rest = parts;
    'seek: while let Some((part, behind)) = next(tokens, rest) {
        rest = behind;
        if let Part::Line(form, at, parts) = part {
            if is_same_form(Form::Op, form) {
                let kind = inside(tokens, parts, Form::Kind);
                let ops = Ops {
                    parts: behind,
                    direct: true,
                };
                return Some((Operation { at, parts, kind }, ops));
            }
        }
    }
    None
}

/// The first operation, with those behind it.
#[tactic(auto, using(crate::proofs::Blocked::region_op))]
pub fn next_op<'a>(tokens: &'a [Token], ops: Ops<'a>) -> Option<(Operation<'a>, Ops<'a>)>
    ensures { MatchOption result (operations tokens.now ops.entry ≡ source.none)
        (λ r. operations tokens.now ops.entry
        ≡ with_operation tokens.now r.0 (operations tokens.now r.1)) }
{
    if ops.direct {
        return next_direct(tokens, ops.parts);
    }
    let mut rest = ops.parts;
    'seek: while let Some((part, behind)) = next(tokens, rest) {
        rest = behind;
        match part {
            Part::Single(_, token) => {
                if parts_regions(token) {
                    return None;
                }
            }
            Part::Line(form, at, parts) => {
                if is_same_form(Form::Region, form) {
                    return next_direct(tokens, parts);
                }
                if is_same_form(Form::Op, form) {
                    let kind = inside(tokens, parts, Form::Kind);
                    let ops = Ops {
                        parts: behind,
                        direct: false,
                    };
                    return Some((Operation { at, parts, kind }, ops));
                }
            }
        }
    }
    None
}
