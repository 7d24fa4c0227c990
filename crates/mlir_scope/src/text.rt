ghost use Rattle.std.specs.Prelude.{◌≡◌, map, find, IfOk};
ghost use Rattle.std.specs.Option.{option_map};
ghost use Rattle.std.specs.Str.{bytes_eq};
ghost use Rattle.mlir_ir.specs.Resolved as resolved;
ghost use Rattle.mlir_scope.specs.Functions.{called, signature_said, lines_said, numbered};
ghost use Rattle.mlir_scope.specs.Scopes.{scope_said};

use crate::phrase::{Line, first_spot};
use crate::said::{ValueType, defined_at};
use crate::scope::{Known, Scope};
use crate::signatures::{Signature, signatures_of};
use mlir_ir::{Terminal, Token};
use std::alloc::{AllocError, Global};

/// The names of the functions, each with its number as label.
fn names_of<'a>(
    alloc: Global,
    tokens: &'a [Token],
    funcs: &[Line<'a>],
) -> Result<Scope<'a>, AllocError>
    ensures { IfOk result
        (λ s. scope_said s
        ≡ numbered 0 (map resolved.func_name (lines_said tokens.now funcs.now))) }
{
    let mut names = Scope::new(alloc);
    'each: for (i, f) in funcs.iter().enumerate() {
        names.push(Known {
            label: i,
            name: defined_at(first_spot(tokens, f.parts, Terminal::Symbol)).name,
            count: "1".as_bytes(),
            place: 0,
            ty: ValueType::Index,
        })?;
    }
    Ok(names)
}

/// The tokens of a text, and its functions with their types. A function is found by its name.
#[derive(Drop)]
pub struct Text<'a> {
    pub alloc: Global,
    pub tokens: &'a [Token],
    pub funcs: &'a [Line<'a>],
    signatures: Vec<Signature>,
    names: Scope<'a>,
    ghost listed: { map signature_said signatures.items
        ≡ map called (lines_said tokens.now funcs.now) },
    ghost named: { scope_said names
        ≡ numbered 0 (map resolved.func_name (lines_said tokens.now funcs.now)) },
}

impl<'a> Text<'a> {
    ghost use Rattle.mlir_scope.specs.Texts.{funcs_in, has_signature};

    /// The text with these functions.
    pub fn new(
        alloc: Global,
        tokens: &'a [Token],
        funcs: &'a [Line<'a>],
    ) -> Result<Text<'a>, AllocError>
        ensures tokens { IfOk result (λ t. t.tokens.now ≡ tokens.now) }
        ensures funcs { IfOk result (λ t. funcs_in t ≡ lines_said tokens.now funcs.now) }
    {
        let signatures = signatures_of(alloc, tokens, funcs)?;
        let names = names_of(alloc, tokens, funcs)?;
        Ok(Text {
            alloc,
            tokens,
            funcs,
            signatures,
            names,
        })
    }

    /// The types of the first function that has the name.
    pub fn callee(&self, name: &[u8]) -> Option<&Signature>
        ensures { has_signature
            (find (λ f. bytes_eq (resolved.func_name f) name.now) (funcs_in self.now)) result }
    {
        match self.names.first_named(name) {
            Some(index) => self.signatures.as_slice().get(index),
            None => None,
        }
    }
}
