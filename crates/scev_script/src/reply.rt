ghost use Rattle.std.specs.Prelude.{◌≡◌, IfOk, string_bytes, Some};
ghost use Rattle.scev_script.specs.Replies.{refusal_text, reply_lines};

use arith_word::Text;
use std::alloc::{AllocError, Global};
use std::fmt;

/// Why a command is refused.
#[derive(Clone, Copy, Debug, PartialEq, Eq)]
pub enum RefusalName {
    NoFunc,
    NoValue,
    NoLoop,
    NotInLoop,
    WrongArgs,
    CellsFull,
}

impl fmt::Display for RefusalName {
    ghost output = { λ name. Some (refusal_text name) };

    fn fmt<W: fmt::Write>(&self, f: &mut fmt::Formatter<W>) -> fmt::Result {
        f.write_str(match self {
            RefusalName::NoFunc => "no func",
            RefusalName::NoValue => "no value",
            RefusalName::NoLoop => "no loop",
            RefusalName::NotInLoop => "not in loop",
            RefusalName::WrongArgs => "wrong args",
            RefusalName::CellsFull => "cells full",
        })
    }
}

/// The answer to a command.
#[derive(Debug, Drop)]
pub enum Reply {
    /// The session is pinned to that version.
    Pinned(u16),
    /// There is no such version yet; the greatest that was seen.
    NotYet(u16),
    /// Lines as they are written, each with its LF.
    Lines(Text),
    Forgotten,
    Held,
    Refusal(RefusalName),
}

/// The lines of an answer, each with its LF.
pub fn answer_text(alloc: Global, reply: &Reply) -> Result<String, AllocError>
    ensures { IfOk result (λ text. string_bytes text ≡ reply_lines reply.now) }
{
    let mut out = String::new(alloc);
    match reply {
        Reply::Pinned(version) => writeln!(out, "pinned {version}")?,
        Reply::NotYet(front) => writeln!(out, "not yet: front {front}")?,
        Reply::Lines(lines) => write!(out, "{lines}")?,
        Reply::Forgotten => writeln!(out, "forgotten")?,
        Reply::Held => writeln!(out, "held")?,
        Reply::Refusal(name) => writeln!(out, "{name}")?,
    }
    Ok(out)
}
