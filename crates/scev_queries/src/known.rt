ghost use Rattle.std.specs.Prelude.{◌≡◌, ◌<◌, length, slice_get, IfOk, MatchOption, None, OnOk, Some};
ghost use Rattle.std.specs.List.{All};
ghost use Rattle.mlir_ir.specs.Check.{IsWellFormed};
ghost use Rattle.scev_queries.specs.Answers.{func_named};
ghost use Rattle.scev_queries.specs.Kept.{AreKept, IsKeptAt, IsKnown};

use crate::lookup::place_of;
use fresh_scev::{Facts, analyse};
use mlir_ir::Func;
use scev_text::ValueNames;
use std::alloc::{AllocError, Global};

/// A function with the names of its values and loops, and its facts.
#[derive(Drop)]
pub struct Known<'m> {
    pub func: &'m Func,
    pub names: ValueNames<'m>,
    pub facts: Facts,
}

/// Analyses a function. An error comes only where memory runs out.
fn know<'m>(alloc: Global, func: &'m Func) -> Result<Known<'m>, AllocError>
    requires { IsWellFormed func.now }
    ensures known { IfOk result (λ k. IsKnown k) }
    ensures same { IfOk result (λ k. k.func.now ≡ func.now) }
{
    let names = ValueNames::new(alloc, func)?;
    let facts = analyse(alloc, func)?;
    Ok(Known { func, names, facts })
}

/// Nothing is kept yet of so many functions.
#[tactic(auto, using(crate::proofs::KeptFunctions::nothing_is_kept, crate::proofs::KeptFunctions::one_longer))]
pub fn nothing_kept<'m>(
    alloc: Global,
    funcs: &'m [Func],
) -> Result<Vec<Option<Known<'m>>>, AllocError>
    ensures { IfOk result (λ kept. AreKept funcs.now kept.items) }
{
    let mut kept = Vec::with_capacity(alloc, funcs.len())?;
    for _ in funcs {
        kept.push(None)?;
    }
    Ok(kept)
}

/// Analyses the function at that place, unless that is done. An error comes only where memory runs
/// out.
fn prepare<'m>(
    alloc: Global,
    funcs: &'m [Func],
    kept: &mut [Option<Known<'m>>],
    at: usize,
) -> Result<(), AllocError>
    requires formed { All IsWellFormed funcs.now }
    requires kept { AreKept funcs.now kept.old }
    requires within { at < length funcs.now }
    ensures kept { AreKept funcs.now kept.new }
    ensures known { OnOk result ((k : Known) × (slice_get kept.new at ≡ Some (Some k))) }
{
    if kept[at].is_none() {
        kept[at] = Some(know(alloc, &funcs[at])?);
    }
    Ok(())
}

/// The place of the function of that name, which is analysed unless that is done; `None` exactly
/// where there is none. An error comes only where memory runs out.
pub fn prepared<'m>(
    alloc: Global,
    funcs: &'m [Func],
    kept: &mut [Option<Known<'m>>],
    name: &[u8],
) -> Result<Option<usize>, AllocError>
    requires formed { All IsWellFormed funcs.now }
    requires kept { AreKept funcs.now kept.old }
    ensures kept { AreKept funcs.now kept.new }
    ensures found { IfOk result (λ place. MatchOption place (func_named funcs.now name.now ≡ None)
        (λ at. (k : Known) × IsKeptAt funcs.now kept.new name.now at k)) }
{
    match place_of(funcs, name) {
        Some(at) => {
            prepare(alloc, funcs, kept, at)?;
            Ok(Some(at))
        }
        None => Ok(None),
    }
}

/// What is kept at that place.
pub fn kept_at<'a, 'm>(kept: &'a [Option<Known<'m>>], at: usize) -> &'a Known<'m>
    requires { (k : Known) × (slice_get kept.now at ≡ Some (Some k)) }
    ensures { slice_get kept.now at ≡ Some (Some result.now) }
{
    match &kept[at] {
        Some(known) => known,
        None => unreachable!(),
    }
}
