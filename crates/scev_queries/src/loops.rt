ghost use Rattle.std.specs.Prelude.{◌≡◌, slice_get, IfOk, MatchOption};
ghost use Rattle.mlir_ir.specs.Loops.{func_loops};
ghost use Rattle.mlir_ir.specs.declared.loop_labels.LoopLabels.{LoopLabels};
ghost use Rattle.scev_queries.specs.Answers.{line_of, IsTurnsOf};
ghost use Rattle.scev_queries.specs.Kept.{IsKnown};
ghost use Rattle.scev_script.specs.declared.reply.RefusalName.TheVariants.{NoLoop};
ghost use Rattle.scev_script.specs.declared.reply.Reply.TheVariants.{Forgotten, Refusal};
ghost use Rattle.scev_text.specs.Naming.{naming_of};
ghost use Rattle.scev_text.specs.Texts.{turns_text};
ghost use Rattle.trip_count.specs.declared.answer.Turns.{Turns};

use crate::known::Known;
use crate::lines::line_reply;
use scev_script::{RefusalName, Reply};
use scev_text::push_turns;
use std::alloc::{AllocError, Global};
use trip_count::Turns;

/// The reply of a trip count.
fn turns_line(alloc: Global, known: &Known<'_>, turns: &Turns) -> Result<Reply, AllocError>
    ensures { IfOk result (λ reply. reply ≡ line_of (turns_text known.now.names turns.now)) }
{
    let mut line = String::new(alloc);
    push_turns(&mut line, &known.names, turns)?;
    Ok(line_reply(line)?)
}

/// The reply of the trip count of that loop of the function.
pub fn turns(alloc: Global, known: &Known<'_>, number: u16) -> Result<Reply, AllocError>
    requires { IsKnown known.now }
    ensures { IfOk result (λ reply. MatchOption (slice_get (func_loops known.now.func.now) number)
        (reply ≡ Refusal NoLoop)
        (λ l. (t : Turns) × IsTurnsOf known.now.func.now l t
        × (reply ≡ line_of (turns_text (naming_of known.now.func.now) t)))) }
{
    let Some(labels) = known.names.loop_labels(number as usize) else {
        return Ok(Reply::Refusal(RefusalName::NoLoop));
    };
    match known.facts.turns(labels.counter) {
        Some(turns) => Ok(turns_line(alloc, known, turns)?),
        None => unreachable!(),
    }
}

/// The reply to a command that forgets what is kept of that loop of the function: nothing is,
/// beside the facts.
pub fn forget(known: &Known<'_>, number: u16) -> Reply
    requires { IsKnown known.now }
    ensures { MatchOption (slice_get (func_loops known.now.func.now) number)
        (result ≡ Refusal NoLoop) (λ l. result ≡ Forgotten) }
{
    match known.names.loop_labels(number as usize) {
        Some(_) => Reply::Forgotten,
        None => Reply::Refusal(RefusalName::NoLoop),
    }
}
