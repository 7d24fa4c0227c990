ghost use Rattle.std.specs.Prelude.{◌≡◌, map, OnOk};
ghost use Rattle.mlir_ir.specs.ScopeFaults as faults;
ghost use Rattle.mlir_ir.specs.Source as source;
ghost use Rattle.mlir_ir.specs.declared.terminal.Terminal.TheVariants as terminals;
ghost use Rattle.mlir_scope.specs.Said.{said};
ghost use Rattle.mlir_scope.specs.Walks.{Notes, in_scope, breaks_at_else, wanted_types, listed_tys};

use crate::endings::{ending_in, note_ending, note_region_ending};
use crate::loop_headers::{listed_of, wanted_of};
use crate::loops::note_condition;
use crate::phrase::{behind, has, inside, word};
use crate::text::Text;
use crate::walked::Walked;
use mlir_ir::{Branch, Form, ScopeKind, Terminal};
use std::alloc::AllocError;

/// Notes what the end of the first region of an operation breaks, which gives its results.
pub fn note_region_end<'a>(
    text: &Text<'a>,
    kind: &'a [Branch],
    w: &mut Walked<'a>,
) -> Result<(), AllocError>
    ensures { OnOk result
        (Notes w.old w.new
        (faults.region_ending (in_scope w.old) (source.word (said text.now.tokens.now kind.now)).at
        (wanted_types (said text.now.tokens.now kind.now))
        (source.region_parts (said text.now.tokens.now kind.now)))) }
{
    let tokens = text.tokens;
    let wanted = wanted_of(text, kind)?;
    let at = word(tokens, kind).at;
    let parts = inside(tokens, kind, Form::Region);
    note_region_ending(
        text.alloc,
        tokens,
        &w.scope,
        at,
        &wanted,
        parts,
        &mut w.first,
    )?;
    Ok(())
}

/// Notes what the end of the region of `else` breaks, or that the region is missing.
pub fn note_else_end<'a>(
    text: &Text<'a>,
    kind: &'a [Branch],
    w: &mut Walked<'a>,
) -> Result<(), AllocError>
    ensures { OnOk result
        (Notes w.old w.new
        (breaks_at_else (in_scope w.old) (said text.now.tokens.now kind.now)
        (wanted_types (said text.now.tokens.now kind.now)))) }
{
    let tokens = text.tokens;
    let wanted = wanted_of(text, kind)?;
    let at = word(tokens, kind).at;
    if has(tokens, kind, Terminal::Else) {
        let parts = inside(tokens, behind(tokens, kind, Terminal::Else), Form::Region);
        note_region_ending(
            text.alloc,
            tokens,
            &w.scope,
            at,
            &wanted,
            parts,
            &mut w.first,
        )?;
    } else {
        w.first.note_if(!wanted.is_empty(), at, ScopeKind::Arity);
    }
    Ok(())
}

/// Notes what the condition of an `scf.while` breaks, which gives its results.
pub fn note_before_end<'a>(
    text: &Text<'a>,
    kind: &'a [Branch],
    w: &mut Walked<'a>,
) -> Result<(), AllocError>
    ensures { OnOk result
        (Notes w.old w.new
        (faults.condition_breaks (in_scope w.old) (said text.now.tokens.now kind.now)
        (wanted_types (said text.now.tokens.now kind.now)))) }
{
    let wanted = wanted_of(text, kind)?;
    note_condition(text, &w.scope, kind, &wanted, &mut w.first)?;
    Ok(())
}

/// Notes what the end of the region behind `do` breaks, which gives the carried values.
pub fn note_after_end<'a>(
    text: &Text<'a>,
    kind: &'a [Branch],
    w: &mut Walked<'a>,
) -> Result<(), AllocError>
    ensures { OnOk result
        (Notes w.old w.new
        (faults.ending_breaks (in_scope w.old) (listed_tys (said text.now.tokens.now kind.now))
        (source.ending terminals.Yield (source.after_parts (said text.now.tokens.now kind.now))))) }
{
    let types = listed_of(text, kind)?;
    let parts = behind(text.tokens, kind, Terminal::Do);
    let e = ending_in(text.alloc, text.tokens, parts, Terminal::Yield)?;
    note_ending(text.alloc, &w.scope, &types, &e, &mut w.first)?;
    Ok(())
}
