ghost use Rattle.std.specs.Prelude.{◌≡◌, None};
ghost use Rattle.mlir_ir.specs.ScopeFaults as faults;

use mlir_ir::ScopeKind;

/// A broken rule, at a token by its number.
#[derive(Clone, Copy, Debug, PartialEq, Eq)]
pub struct ScopeFault {
    pub token: u32,
    pub kind: ScopeKind,
}

/// The place of the kind among those at one token.
fn rank(kind: ScopeKind) -> u8
    ensures { result ≡ faults.rank kind }
{
    match kind {
        ScopeKind::Limit => 0,
        ScopeKind::Twice => 1,
        ScopeKind::Unknown => 2,
        ScopeKind::Arity => 3,
        ScopeKind::WrongType => 4,
    }
}

/// The breaks noted so far, of which the one that counts is kept.
#[derive(Clone, Copy)]
pub struct First {
    pub best: Option<ScopeFault>,
}

impl First {
    ghost use Rattle.mlir_ir.specs.ScopeFaults.{broken};
    ghost use Rattle.mlir_scope.specs.Noted.{noted, as_break};

    /// With no break noted.
    pub fn new() -> First
        ensures { result.best ≡ None }
    {
        First { best: None }
    }

    /// Notes a break at that token, where one of that kind stands.
    pub fn note_if(&mut self, broken: bool, token: u32, kind: ScopeKind)
        ensures { self.new.best ≡ noted self.old.best (faults.broken broken token kind) }
    {
        if !broken {
            return;
        }
        match self.best {
            None => self.best = Some(ScopeFault { token, kind }),
            Some(best) => {
                let kept = best.token < token
                    || (best.token == token && rank(best.kind) <= rank(kind));
                if !kept {
                    self.best = Some(ScopeFault { token, kind });
                }
            }
        }
    }
}
