ghost use Rattle.std.specs.Prelude.{◌≡◌, ◌≤◌, ◌<◌, ◌+◌, ◌^◌, length, IfOk, MatchOption, MatchResult};
ghost use Rattle.mlir_ir.specs.Tokens.{NoneBegins, IsTokenAt, AreTokens};
ghost use Rattle.mlir_lex.specs.Refused.{IsRefused};

use crate::error::{LexError, LexFault};
use crate::front::token_front;
use crate::gap::gap_len;
use arith_word::{List, Text};
use mlir_ir::Token;
use std::alloc::{AllocError, Global};

/// The longest token that the bytes begin with; `at` is their byte offset.
fn token_here(alloc: Global, here: &[u8], at: u32) -> Result<Option<Token>, AllocError>
    requires { at + length here.now < 2 ^ 32 }
    ensures { IfOk result (λ o. MatchOption o (NoneBegins here.now)
        (λ token. IsTokenAt at here.now token
        × (0 < length token.text) × (length token.text ≤ length here.now))) }
{
    let Some((kind, len)) = token_front(here) else {
        return Ok(None)
    };
    // The bytes of a token are ASCII, hence UTF-8.
    Ok(Some(Token {
        kind,
        text: Text::from_front(alloc, here, len)?,
        from: at,
        to: at + len as u32,
    }))
}

/// The tokens of a text of fewer than 2^32 bytes, by longest match, with whitespace and comments
/// between them. The lexical error is at the first byte where no token begins.
#[tactic(auto, using(crate::proofs::Pushed::lexes_more))]
pub fn tokens(alloc: Global, text: &str) -> Result<List<Token>, LexError>
    requires { length text.now < 2 ^ 32 }
    ensures { MatchResult result (λ found. AreTokens text.now found) (λ e. IsRefused text.now e) }
{
    let bytes = text.as_bytes();
    let mut found = Vec::new(alloc);
    let mut rest = bytes;
    'pieces: loop {
        let here = rest.split_at(gap_len(rest)).1;
        if here.is_empty() {
            return Ok(List::from_vec(found));
        }
        let at = (bytes.len() - here.len()) as u32;
        match token_here(alloc, here, at)? {
            None => return Err(LexError::Fault(LexFault { at })),
            Some(token) => {
                rest = here.split_at(token.text.as_bytes().len()).1;
                found.push(token)?;
            }
        }
    }
}
