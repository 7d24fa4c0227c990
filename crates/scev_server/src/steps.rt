ghost use Rattle.std.specs.Prelude.{◌≡◌, IfOk};
ghost use Rattle.scev_queries.specs.Shown.{shown};
ghost use Rattle.scev_server.specs.Shown.{state_of};
ghost use Rattle.scev_server.specs.Walk.{State as Reached, Steps, IsAsked, IsPinned, same};
ghost use Rattle.scev_script.specs.declared.script.Command.TheVariants.{Scev, At, Hold};

use crate::state::{Held, State};
use arith_word::Text;
use scev_queries::{Ask, Queries};
use scev_script::{Command, Pin, Reply, ValueName};
use std::alloc::AllocError;

/// The greatest version that is published: only the one that a session begins with.
const FRONT: u16 = 0;

/// The reply to a pin. A version above the front isn't there yet.
fn pin(state: &State<'_>, to: Pin) -> Reply
    ensures { IsPinned to (state_of state.now) result (state_of state.now) }
{
    match to {
        Pin::Latest => Reply::Pinned(FRONT),
        Pin::At(version) => {
            if version <= FRONT {
                Reply::Pinned(version)
            } else {
                Reply::NotYet(FRONT)
            }
        }
    }
}

/// The reply of an answer whose expression isn't held.
fn replied(ask: Ask) -> Reply
    ensures { (reached : Reached) → IsAsked (shown ask) same reached result reached }
{
    match ask {
        Ask::Refused(name) => Reply::Refusal(name),
        Ask::Granted(reply, _) => reply,
    }
}

/// The reply to `scev`.
fn scev(
    queries: &mut Queries<'_>,
    state: &State<'_>,
    name: &Text,
    value: &ValueName,
) -> Result<Reply, AllocError>
    ensures same { queries.new ≡ queries.old }
    ensures step { IfOk result (λ reply.
        Steps queries.old (state_of state.now) (Scev name.now value.now) reply
        (state_of state.now)) }
{
    let ask = queries.scev(name.as_bytes(), value)?;
    Ok(replied(ask))
}

/// The reply to `at`: iteration `n` of loop number `number`.
fn at(
    queries: &mut Queries<'_>,
    state: &State<'_>,
    name: &Text,
    value: &ValueName,
    number: u16,
    n: u64,
) -> Result<Reply, AllocError>
    ensures same { queries.new ≡ queries.old }
    ensures step { IfOk result (λ reply.
        Steps queries.old (state_of state.now) (At name.now value.now number n) reply
        (state_of state.now)) }
{
    let ask = queries.at(name.as_bytes(), value, number, n)?;
    Ok(replied(ask))
}

/// The reply to `hold`. Only a grant adds the name.
fn hold<'a>(
    queries: &mut Queries<'_>,
    state: &mut State<'a>,
    held: &'a Text,
    name: &Text,
    value: &ValueName,
) -> Result<Reply, AllocError>
    ensures same { queries.new ≡ queries.old }
    ensures step { IfOk result (λ reply.
        Steps queries.old (state_of state.old) (Hold held.now name.now value.now) reply
        (state_of state.new)) }
{
    match queries.hold(name.as_bytes(), value)? {
        Ask::Refused(name) => Ok(Reply::Refusal(name)),
        Ask::Granted(reply, expr) => {
            state.held.push(Held { name: held, expr })?;
            Ok(reply)
        }
    }
}

/// The reply to a command.
pub fn step<'a>(
    queries: &mut Queries<'_>,
    state: &mut State<'a>,
    command: &'a Command,
) -> Result<Reply, AllocError>
    ensures same { queries.new ≡ queries.old }
    ensures step { IfOk result (λ reply.
        Steps queries.old (state_of state.old) command.now reply (state_of state.new)) }
{
    match command {
        Command::Pin(to) => Ok(pin(state, *to)),
        Command::Scev(name, value) => scev(queries, state, name, value),
        Command::At(name, value, number, n) => at(queries, state, name, value, *number, *n),
        Command::Turns(name, number) => queries.turns(name.as_bytes(), *number),
        Command::Run(name, budget, args, replies) => queries.run(
            name.as_bytes(),
            *budget,
            args.as_slice(),
            replies.as_slice(),
        ),
        Command::Forget(name, number) => queries.forget(name.as_bytes(), *number),
        Command::Hold(held, name, value) => hold(queries, state, held, name, value),
        Command::Print(name) => queries.print(name.as_bytes()),
    }
}
