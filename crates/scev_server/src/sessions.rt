ghost use Rattle.std.specs.Prelude.{◌≡◌, ◌++◌, ◌-◌, ◌^◌, All, IfOk, OnOk, map, min, string_bytes};
ghost use Rattle.mlir_ir.specs.Check.{IsWellFormed};
ghost use Rattle.scev_server.specs.Output.{IsOutput, named_in};
ghost use Rattle.scev_server.specs.Shown.{IsSession, AreSessions, held_of, named_of};

use crate::equal::{Named, push_equal};
use crate::gate::Gate;
use crate::state::{Held, State};
use crate::steps::step;
use arith_word::Text;
use mlir_ir::Module;
use scev_queries::Queries;
use scev_script::{Script, answer_text};
use std::alloc::{AllocError, Global};

/// The number of a session or a command for the gate; the greatest u32 where it is more.
fn gate_number(place: usize) -> u32
    ensures { result ≡ min place (2 ^ 32 - 1) }
{
    place.min(u32::MAX as usize) as u32
}

/// Adds the lines that answer the commands of a session, and passes the gate before each command.
/// Returns the names that the session holds at its end.
fn push_walk<'a, G: Gate>(
    out: &mut String,
    alloc: Global,
    queries: &mut Queries<'_>,
    script: &'a Script,
    session: u32,
    gate: &G,
) -> Result<Vec<Held<'a>>, AllocError>
    ensures same { queries.new ≡ queries.old }
    ensures walk { IfOk result (λ held. IsSession queries.old script.now (string_bytes out.old)
        (string_bytes out.new) held.items) }
{
    let mut state = State::new(alloc);
    'commands: for (place, command) in script.commands.as_slice().iter().enumerate() {
        gate.pass(session, gate_number(place));
        let reply = step(queries, &mut state, command)?;
        let lines = answer_text(alloc, &reply)?;
        out.push_str(lines.as_str())?;
    }
    Ok(state.held)
}

/// Adds the names that a session holds.
fn push_named<'a>(
    named: &mut Vec<Named<'a>>,
    session: &'a Text,
    held: Vec<Held<'a>>,
) -> Result<(), AllocError>
    ensures { OnOk result (map named_of named.new.items
        ≡ map named_of named.old.items ++ named_in session.now (map held_of held.entry.items)) }
{
    'names: for Held { name, expr } in held {
        named.push(Named {
            session,
            name,
            expr,
        })?;
    }
    Ok(())
}

/// Adds the parts of the sessions. Returns the names that they hold, in the order of the sessions.
fn push_parts<'a, G: Gate>(
    out: &mut String,
    alloc: Global,
    queries: &mut Queries<'_>,
    sessions: &'a [Script],
    gate: &G,
) -> Result<Vec<Named<'a>>, AllocError>
    ensures parts { IfOk result (λ held. AreSessions queries.old sessions.now
        (string_bytes out.old) (string_bytes out.new) held.items) }
{
    let mut named = Vec::new(alloc);
    'sessions: for (place, script) in sessions.iter().enumerate() {
        writeln!(out, "== session {}", script.name)?;
        let held = push_walk(out, alloc, queries, script, gate_number(place), gate)?;
        push_named(&mut named, &script.name, held)?;
    }
    Ok(named)
}

/// The output of a module and its sessions. It fails only where memory runs out.
pub fn output_text<G: Gate>(
    alloc: Global,
    module: &Module,
    sessions: &[Script],
    gate: &G,
) -> Result<String, AllocError>
    requires { All IsWellFormed «module».now.funcs }
    ensures { IfOk result (λ text. IsOutput «module».now.funcs sessions.now (string_bytes text)) }
{
    let mut queries = Queries::new(alloc, module)?;
    let mut out = String::new(alloc);
    let held = push_parts(&mut out, alloc, &mut queries, sessions, gate)?;
    writeln!(out, "== log")?;
    push_equal(alloc, &mut out, held.as_slice())?;
    Ok(out)
}
