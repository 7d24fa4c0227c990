ghost use Rattle.std.specs.Prelude.{◌≡◌, ◌<◌, ◌^◌, length, map, IfOk, MatchResult};
ghost use Rattle.mlir_ir.specs.Terminals as terminals;
ghost use Rattle.mlir_ir.specs.Syntaxes.{IsSyntaxOf, place_of};
ghost use Rattle.mlir_parse.specs.Refused.{IsRefused};

use crate::fault::Fault;
use crate::hope::is_not_here;
use crate::lines::lines;
use crate::terminals::terminal_of;
use crate::tree::tree_of;
use arith_word::List;
use mlir_ir::{Syntax, Terminal, Token};
use mlir_lex::{LexError, tokens};
use std::alloc::{AllocError, Global};
use thiserror::Error;

/// Why a text has no syntax: an allocation failure, or a fault at a byte offset, which is the
/// text's length for its end.
#[derive(Clone, Copy, Debug, PartialEq, Eq, Error)]
pub enum ParseFault {
    #[error("no memory")]
    NoMemory,
    /// The first byte where no token begins.
    #[error("no token begins at {0}")]
    Lex(u32),
    /// The first unexpected token, or the end of an unfinished text.
    #[error("no text goes on with the token at {0}")]
    Syntax(u32),
    /// A word other than an operation name or a type, where one of these is accepted.
    #[error("no operation or type is named by the word at {0}")]
    NotHere(u32),
    /// The brace that would open the thirteenth region.
    #[error("the region at {0} is too deep")]
    TooDeep(u32),
}

impl From<AllocError> for ParseFault {
    ghost use Rattle.mlir_parse.specs.declared.parser.ParseFault.TheVariants.{NoMemory};

    ghost from_gives = { λ _ e. e ≡ NoMemory };

    fn from(_e: AllocError) -> ParseFault {
        ParseFault::NoMemory
    }
}

impl From<LexError> for ParseFault {
    ghost use Rattle.mlir_parse.specs.Refused.{fault_of};

    ghost from_gives = { λ lexed e. e ≡ fault_of lexed };

    fn from(lexed: LexError) -> ParseFault {
        match lexed {
            LexError::NoMemory => ParseFault::NoMemory,
            LexError::Fault(fault) => ParseFault::Lex(fault.at),
        }
    }
}

/// The terminals of the tokens.
fn terminals_of(alloc: Global, tokens: &[Token]) -> Result<Vec<Terminal>, AllocError>
    ensures { IfOk result (λ made. made.items ≡ map terminals.terminal_of tokens.now) }
{
    let mut made = Vec::with_capacity(alloc, tokens.len())?;
    for token in tokens {
        made.push(terminal_of(token))?;
    }
    Ok(made)
}

/// The byte offset of the token by its index; the text's length for the end.
fn place(tokens: &[Token], length: u32, token: usize) -> u32
    ensures { result ≡ place_of tokens.now length token }
{
    match tokens.get(token) {
        Some(token) => token.from,
        None => length,
    }
}

/// The syntax of a text of fewer than 2^32 bytes: its tokens, with the tree that derives them by
/// the grammar, with at most twelve open regions. Else the first fault.
#[tactic(auto, using(crate::proofs::Parsed::few_terminals, crate::proofs::Parsed::syntax_is, crate::proofs::Parsed::fault_at, crate::proofs::Parsed::refused_as))]
pub fn parse(alloc: Global, text: &str) -> Result<Syntax, ParseFault>
    requires { length text.now < 2 ^ 32 }
    ensures { MatchResult result (λ syntax. IsSyntaxOf text.now syntax)
        (λ e. IsRefused text.now e) }
{
    let found = tokens(alloc, text)?;
    let length = text.len() as u32;
    let terminals = terminals_of(alloc, found.as_slice())?;
    let table = lines(alloc)?;
    match tree_of(alloc, table.as_slice(), terminals.as_slice()) {
        Ok(root) => Ok(Syntax {
            tokens: found,
            length,
            root,
        }),
        Err(Fault::NoMemory) => Err(ParseFault::NoMemory),
        Err(Fault::TooDeep(at)) => Err(ParseFault::TooDeep(place(found.as_slice(), length, at))),
        Err(Fault::Syntax(at)) => {
            let byte = place(found.as_slice(), length, at);
            if is_not_here(alloc, table.as_slice(), terminals.as_slice(), at)? {
                Err(ParseFault::NotHere(byte))
            } else {
                Err(ParseFault::Syntax(byte))
            }
        }
    }
}
