ghost use Rattle.std.specs.Prelude.{◌≡◌, IfOk};
ghost use Rattle.std.specs.List.{All};
ghost use Rattle.mlir_ir.specs.Check.{IsWellFormed};
ghost use Rattle.scev_queries.specs.Answers.{IsScev, IsHold, IsAsOf, IsTurns, IsForgotten, IsPrinted, IsRun};
ghost use Rattle.scev_queries.specs.Shown.{shown};

use crate::ask::Ask;
use crate::known::{Known, kept_at, nothing_kept, prepared};
use crate::{loops, runs, values};
use mlir_ir::Module;
use scev_script::{RefusalName, Reply, ValueName};
use std::alloc::{AllocError, Global};
use std::marker::Model;

/// The functions of a module with what is known of them; each is analysed once, when a command
/// first asks.
#[derive(Drop)]
pub struct Queries<'m> {
    alloc: Global,
    source: &'m Module,
    kept: Vec<Option<Known<'m>>>,
}

impl<'m> Model for Queries<'m> {
    ghost use Rattle.std.specs.Prelude as prelude;
    ghost use Rattle.std.specs.Coded.{codes};
    ghost use Rattle.std.specs.List.{All};
    ghost use Rattle.mlir_ir.specs.contracts.types.Kind as kind;
    ghost use Rattle.mlir_ir.specs.Check.{IsWellFormed};
    ghost use Rattle.mlir_ir.specs.declared.types.Func.{Func};
    ghost use Rattle.scev_queries.specs.Kept.{AreKept};

    ghost Value = { prelude.List Func };

    ghost coded = { Prim.hlevel (codes, kind.the_row.coded) };

    ghost view = { λ q. q.source.now.funcs };

    ghost invariant = { λ q. All IsWellFormed q.source.now.funcs
        × AreKept q.source.now.funcs q.kept.items };
}

impl<'m> Queries<'m> {
    /// The functions of a module, of which nothing is known yet.
    pub fn new(alloc: Global, module: &'m Module) -> Result<Queries<'m>, AllocError>
        requires { All IsWellFormed «module».now.funcs }
        ensures { IfOk result (λ q. q ≡ «module».now.funcs) }
    {
        let kept = nothing_kept(alloc, module.funcs.as_slice())?;
        Ok(Queries {
            alloc,
            source: module,
            kept,
        })
    }

    /// What the module says to `scev`. An error comes only where memory runs out.
    pub fn scev(&mut self, name: &[u8], value: &ValueName) -> Result<Ask, AllocError>
        ensures same { self.new ≡ self.old }
        ensures answer { IfOk result (λ ask. IsScev self.old name.now value.now (shown ask)) }
    {
        let funcs = self.source.funcs.as_slice();
        match prepared(self.alloc, funcs, self.kept.as_mut_slice(), name)? {
            Some(at) => Ok(values::scev(self.alloc, kept_at(&self.kept, at), value)?),
            None => Ok(Ask::Refused(RefusalName::NoFunc)),
        }
    }

    /// What the module says to `hold`. An error comes only where memory runs out.
    pub fn hold(&mut self, name: &[u8], value: &ValueName) -> Result<Ask, AllocError>
        ensures same { self.new ≡ self.old }
        ensures answer { IfOk result (λ ask. IsHold self.old name.now value.now (shown ask)) }
    {
        let funcs = self.source.funcs.as_slice();
        match prepared(self.alloc, funcs, self.kept.as_mut_slice(), name)? {
            Some(at) => Ok(values::hold(self.alloc, kept_at(&self.kept, at), value)?),
            None => Ok(Ask::Refused(RefusalName::NoFunc)),
        }
    }

    /// What the module says to `at`, for iteration `n` of that loop. An error comes only where
    /// memory runs out.
    pub fn at(
        &mut self,
        name: &[u8],
        value: &ValueName,
        number: u16,
        n: u64,
    ) -> Result<Ask, AllocError>
        ensures same { self.new ≡ self.old }
        ensures answer { IfOk result (λ ask.
            IsAsOf self.old name.now value.now number n (shown ask)) }
    {
        let funcs = self.source.funcs.as_slice();
        match prepared(self.alloc, funcs, self.kept.as_mut_slice(), name)? {
            Some(at) => Ok(values::at(self.alloc, kept_at(&self.kept, at), value, number, n)?),
            None => Ok(Ask::Refused(RefusalName::NoFunc)),
        }
    }

    /// The reply to `turns` of that loop. An error comes only where memory runs out.
    pub fn turns(&mut self, name: &[u8], number: u16) -> Result<Reply, AllocError>
        ensures same { self.new ≡ self.old }
        ensures answer { IfOk result (λ reply. IsTurns self.old name.now number reply) }
    {
        let funcs = self.source.funcs.as_slice();
        match prepared(self.alloc, funcs, self.kept.as_mut_slice(), name)? {
            Some(at) => Ok(loops::turns(self.alloc, kept_at(&self.kept, at), number)?),
            None => Ok(Reply::Refusal(RefusalName::NoFunc)),
        }
    }

    /// The reply to `forget` of that loop. An error comes only where memory runs out.
    pub fn forget(&mut self, name: &[u8], number: u16) -> Result<Reply, AllocError>
        ensures same { self.new ≡ self.old }
        ensures answer { IfOk result (λ reply. IsForgotten self.old name.now number reply) }
    {
        let funcs = self.source.funcs.as_slice();
        match prepared(self.alloc, funcs, self.kept.as_mut_slice(), name)? {
            Some(at) => Ok(loops::forget(kept_at(&self.kept, at), number)),
            None => Ok(Reply::Refusal(RefusalName::NoFunc)),
        }
    }

    /// The reply to `print`. An error comes only where memory runs out.
    pub fn print(&self, name: &[u8]) -> Result<Reply, AllocError>
        ensures { IfOk result (λ reply. IsPrinted self.now name.now reply) }
    {
        Ok(runs::print(self.alloc, self.source, name)?)
    }

    /// The reply to `run`, with a budget, arguments and the replies of calls. An error comes only
    /// where memory runs out.
    pub fn run(
        &self,
        name: &[u8],
        budget: u32,
        args: &[u64],
        replies: &[u64],
    ) -> Result<Reply, AllocError>
        ensures { IfOk result (λ reply.
            IsRun self.now name.now budget args.now replies.now reply) }
    {
        let funcs = self.source.funcs.as_slice();
        Ok(runs::run(self.alloc, funcs, name, budget, args, replies)?)
    }
}
