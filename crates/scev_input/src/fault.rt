ghost use Rattle.std.specs.Prelude.{◌≡◌, Some};
ghost use Rattle.scev_input.specs.FaultLines.{kind_text};
ghost use Rattle.scev_input.specs.declared.fault.Refused.TheVariants as refusals;
ghost use Rattle.scev_input.specs.declared.fault.Refused.TheVariants.{NoMemory};

use mlir_parse::ParseFault;
use std::alloc::{AllocError, AllocFailed};
use std::fmt;

/// What is wrong with bytes that are no input. A scope fault has the kind that `ScopeKind` says of
/// it.
#[derive(Clone, Copy, Debug, PartialEq, Eq)]
pub enum FaultKind {
    /// A byte begins no UTF-8 sequence.
    Utf8,
    /// No token of the module begins there.
    Lex,
    /// No module goes on with the token.
    Syntax,
    /// A word names no operation or type, where one of these is accepted.
    NotHere,
    /// The brace opens the thirteenth region.
    TooDeep,
    /// A value or a function isn't known.
    Unknown,
    /// A name is defined a second time.
    Twice,
    /// Types disagree, or a literal doesn't fit its type.
    WrongType,
    /// Lists that belong together differ in length.
    Arity,
    /// A limit of the module or of the scripts is passed.
    Limit,
    /// The line is no line of a script, or repeats a name.
    Script,
}

impl fmt::Display for FaultKind {
    ghost output = { λ kind. Some (kind_text kind) };

    fn fmt<W: fmt::Write>(&self, f: &mut fmt::Formatter<W>) -> fmt::Result {
        f.write_str(match self {
            FaultKind::Utf8 => "utf8",
            FaultKind::Lex => "lex",
            FaultKind::Syntax => "syntax",
            FaultKind::NotHere => "not here",
            FaultKind::TooDeep => "too deep",
            FaultKind::Unknown => "unknown",
            FaultKind::Twice => "twice",
            FaultKind::WrongType => "wrong type",
            FaultKind::Arity => "arity",
            FaultKind::Limit => "limit",
            FaultKind::Script => "script",
        })
    }
}

/// The first fault of bytes that are no input: its kind, and the byte offset where it stands.
#[derive(Clone, Copy, Debug, PartialEq, Eq)]
pub struct Fault {
    pub kind: FaultKind,
    pub at: u32,
}

/// Why bytes aren't read as an input: memory was refused, or a fault.
#[derive(Clone, Copy, Debug, PartialEq, Eq)]
pub enum Refused {
    NoMemory,
    Fault(Fault),
}

impl From<AllocError> for Refused {
    ghost from_gives = { λ _ e. e ≡ NoMemory };

    fn from(_e: AllocError) -> Refused {
        Refused::NoMemory
    }
}

impl<T: Drop> From<AllocFailed<T>> for Refused {
    ghost from_gives = { λ _ e. e ≡ NoMemory };

    fn from(_e: AllocFailed<T>) -> Refused {
        Refused::NoMemory
    }
}

impl From<ParseFault> for Refused {
    ghost use Rattle.scev_input.specs.Refusals.{refusal_of};

    ghost from_gives = { λ parsed e. e ≡ refusal_of parsed };

    fn from(parsed: ParseFault) -> Refused {
        match parsed {
            ParseFault::NoMemory => Refused::NoMemory,
            ParseFault::Lex(at) => fault_at(FaultKind::Lex, at),
            ParseFault::Syntax(at) => fault_at(FaultKind::Syntax, at),
            ParseFault::NotHere(at) => fault_at(FaultKind::NotHere, at),
            ParseFault::TooDeep(at) => fault_at(FaultKind::TooDeep, at),
        }
    }
}

/// The refusal for a fault of that kind at that byte.
pub(crate) fn fault_at(kind: FaultKind, at: u32) -> Refused
    ensures { result ≡ refusals.Fault (record { kind = kind; at = at }) }
{
    Refused::Fault(Fault { kind, at })
}
