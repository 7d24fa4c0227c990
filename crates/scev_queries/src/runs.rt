ghost use Rattle.std.specs.Prelude.{◌≡◌, ◌==◌, length, IfOk, if◌then◌else◌};
ghost use Rattle.std.specs.List.{All};
ghost use Rattle.mlir_ir.specs.Canonical.{func_text};
ghost use Rattle.mlir_ir.specs.Check.{IsWellFormed};
ghost use Rattle.mlir_ir.specs.Runs.{run_of};
ghost use Rattle.scev_queries.specs.Answers.{line_of, names_of, IsPrinted, IsRun};
ghost use Rattle.scev_queries.specs.RunTexts.{run_text};
ghost use Rattle.scev_script.specs.declared.reply.RefusalName.TheVariants.{WrongArgs};
ghost use Rattle.scev_script.specs.declared.reply.Reply.TheVariants.{Refusal};

use crate::lines::line_reply;
use crate::lookup::place_of;
use crate::run_text::push_run;
use arith_word::Text;
use mlir_ir::{Func, Module};
use mlir_print::print_func;
use scev_script::{RefusalName, Reply};
use scf_eval::run as run_func;
use std::alloc::{AllocError, Global};

/// The reply to a run of a function among these, with a budget, arguments and the replies of its
/// calls.
fn run_reply(
    alloc: Global,
    funcs: &[Func],
    func: &Func,
    budget: u32,
    args: &[u64],
    replies: &[u64],
) -> Result<Reply, AllocError>
    requires { IsWellFormed func.now }
    ensures { IfOk result (λ reply. reply ≡ (if length args.now == length func.now.args
        then line_of (run_text (names_of funcs.now) (run_of func.now args.now replies.now budget))
        else Refusal WrongArgs)) }
{
    if args.len() != func.args.as_slice().len() {
        return Ok(Reply::Refusal(RefusalName::WrongArgs));
    }
    let run = run_func(alloc, func, args, replies, u64::from(budget))?;
    let mut line = String::new(alloc);
    push_run(&mut line, funcs, &run)?;
    Ok(line_reply(line)?)
}

/// The reply to a run of the function of that name. An error comes only where memory runs out.
pub fn run(
    alloc: Global,
    funcs: &[Func],
    name: &[u8],
    budget: u32,
    args: &[u64],
    replies: &[u64],
) -> Result<Reply, AllocError>
    requires { All IsWellFormed funcs.now }
    ensures { IfOk result (λ reply.
        IsRun funcs.now name.now budget args.now replies.now reply) }
{
    match place_of(funcs, name) {
        Some(at) => Ok(run_reply(alloc, funcs, &funcs[at], budget, args, replies)?),
        None => Ok(Reply::Refusal(RefusalName::NoFunc)),
    }
}

/// The reply of the canonical text of the function of that name. An error comes only where memory
/// runs out.
pub fn print(alloc: Global, module: &Module, name: &[u8]) -> Result<Reply, AllocError>
    requires { All IsWellFormed «module».now.funcs }
    ensures { IfOk result (λ reply. IsPrinted «module».now.funcs name.now reply) }
{
    let funcs = module.funcs.as_slice();
    match place_of(funcs, name) {
        Some(at) => match print_func(alloc, module, u16::from(funcs[at].index))? {
            Some(text) => Ok(Reply::Lines(Text::from_string(text))),
            None => unreachable!(),
        },
        None => Ok(Reply::Refusal(RefusalName::NoFunc)),
    }
}
