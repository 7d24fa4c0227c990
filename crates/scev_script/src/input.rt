ghost use Rattle.std.specs.Prelude.{◌≡◌, ◌≤◌, ◌<◌, ◌^◌, IfOk, map, length};
ghost use Rattle.std.specs.List.{list_any};
ghost use Rattle.scev_script.specs.Scripts as scripts;
ghost use Rattle.scev_script.specs.Scripts.{Becomes, Gives, HaveSameSections, Reads};
ghost use Rattle.scev_script.specs.Scripts.{commands_behind, input_of, module_end_in, scripts_behind};
ghost use Rattle.scev_script.specs.Scripts.{with_command, with_line};
ghost use Rattle.scev_script.specs.Within.{AreScripts};
ghost use Rattle.scev_script.specs.declared.error.InputError.TheVariants.{Fault};

use crate::commands::command_in;
use crate::error::{InputError, InputFault};
use crate::limits::SESSION_LIMIT;
use crate::lines::first_line;
use crate::names::session_name;
use crate::script::{Command, Input, Script};
use crate::session::Commands;
use crate::words::words_in;
use arith_word::{List, Text};
use std::alloc::{AllocError, Global};

/// The line is no line of a script, or repeats a name.
fn script_fault(module_end: u32, at: u32) -> InputError
    ensures { result ≡ Fault (scripts.script_fault module_end at) }
{
    InputError::Fault(InputFault {
        at,
        limit: false,
        module_end,
    })
}

/// The line passes a limit.
fn limit_fault(module_end: u32, at: u32) -> InputError
    ensures { result ≡ Fault (scripts.limit_fault module_end at) }
{
    InputError::Fault(InputFault {
        at,
        limit: true,
        module_end,
    })
}

/// Whether the line begins a section.
fn begins_section(line: &[u8]) -> bool
    ensures { result ≡ scripts.begins_section line.now }
{
    line.starts_with(b"== ")
}

/// Whether a line of these words is skipped: it has none, or is a comment.
fn is_skipped(words: &[&[u8]]) -> bool
    ensures { result ≡ scripts.is_skipped (map (λ w. w.now) words.now) }
{
    match words {
        [] => true,
        [word, ..] => word.starts_with(b"//"),
    }
}

/// Adds the command of a line to those of its session.
fn add_line(
    alloc: Global,
    done: &mut Commands,
    line: &[u8],
    at: u32,
    end: u32,
) -> Result<(), InputError>
    ensures { Becomes (with_line end at done.old.list.items line.now) done.new.list.items result }
{
    let words = words_in(alloc, line)?;
    if is_skipped(words.as_slice()) {
        return Ok(());
    }
    match command_in(alloc, words.as_slice())? {
        None => Err(script_fault(end, at)),
        Some(command) => add_command(done, command, at, end),
    }
}

/// Adds the command of a line to those of its session.
fn add_command(done: &mut Commands, command: Command, at: u32, end: u32) -> Result<(), InputError>
    ensures { Becomes (with_command end at done.old.list.items command) done.new.list.items result }
{
    if done.holds_again(&command) {
        return Err(script_fault(end, at));
    }
    if !done.allows(&command) {
        return Err(limit_fault(end, at));
    }
    done.push(command)?;
    Ok(())
}

/// The commands of a session, and the place behind their lines.
#[derive(Drop)]
struct Body {
    commands: List<Command>,
    end: usize,
}

/// The commands of the lines from that place on, up to the next section.
fn read_body(alloc: Global, bytes: &[u8], from: usize, module_end: u32) -> Result<Body, InputError>
    requires within { from ≤ length bytes.now }
    requires short { length bytes.now < 2 ^ 32 }
    ensures commands { Gives (λ b. b.commands) (commands_behind module_end from bytes.now) result }
    ensures rest { IfOk result (λ body. HaveSameSections bytes.now from body.end) }
    ensures behind { IfOk result (λ body. (from ≤ body.end) × (body.end ≤ length bytes.now)) }
{
    let mut commands = Commands::new(alloc);
    let mut at = from;
    'lines: while at < bytes.len() {
        let here = bytes.split_at(at).1;
        let size = first_line(here);
        let line = here.split_at(size.text).0;
        if begins_section(line) {
            return Ok(Body {
                commands: commands.into_list(),
                end: at,
            });
        }
        add_line(alloc, &mut commands, line, at as u32, module_end)?;
        at += size.whole;
    }
    Ok(Body {
        commands: commands.into_list(),
        end: at,
    })
}

/// The name in the words `== session NAME`.
fn header_name(alloc: Global, words: &[&[u8]]) -> Result<Option<Text>, AllocError>
    ensures { IfOk result (λ o. o ≡ scripts.header_name (map (λ w. w.now) words.now)) }
{
    match words {
        [mark, word, name] => {
            if *mark == b"==".as_slice() && *word == b"session".as_slice() {
                session_name(alloc, name)
            } else {
                Ok(None)
            }
        }
        _ => Ok(None),
    }
}

/// Whether a script has the name.
fn is_used(before: &[Script], name: &[u8]) -> bool
    ensures { result ≡ list_any (scripts.is_named name.now) before.now }
{
    before.iter().any(|script| script.name.as_bytes() == name)
}

/// The name of the session that a line begins, behind those scripts.
fn read_header(
    alloc: Global,
    before: &[Script],
    line: &[u8],
    at: u32,
    module_end: u32,
) -> Result<Text, InputError>
    ensures { Reads (scripts.session_name module_end at before.now line.now) result }
{
    let words = words_in(alloc, line)?;
    match header_name(alloc, words.as_slice())? {
        None => Err(script_fault(module_end, at)),
        Some(name) => {
            if is_used(before, name.as_bytes()) {
                Err(script_fault(module_end, at))
            } else if before.len() < SESSION_LIMIT {
                Ok(name)
            } else {
                Err(limit_fault(module_end, at))
            }
        }
    }
}

/// The scripts of the sections from the end of the module on.
fn read_scripts(alloc: Global, bytes: &[u8], module_end: u32) -> Result<List<Script>, InputError>
    requires within { module_end ≤ length bytes.now }
    requires short { length bytes.now < 2 ^ 32 }
    ensures { Reads (scripts_behind module_end bytes.now) result }
{
    let mut found = Vec::new(alloc);
    let mut at = module_end as usize;
    'sections: while at < bytes.len() {
        let here = bytes.split_at(at).1;
        let size = first_line(here);
        let line = here.split_at(size.text).0;
        if begins_section(line) {
            let name = read_header(alloc, found.as_slice(), line, at as u32, module_end)?;
            let body = read_body(alloc, bytes, at + size.whole, module_end)?;
            found.push(Script {
                name,
                commands: body.commands,
            })?;
            at = body.end;
        } else {
            at += size.whole;
        }
    }
    Ok(List::from_vec(found))
}

/// Where the first section begins, or the length of the text where there is none.
fn module_len(bytes: &[u8]) -> usize
    ensures value { result ≡ module_end_in bytes.now }
    ensures rest { HaveSameSections bytes.now 0 result }
    ensures within { result ≤ length bytes.now }
{
    let mut at = 0;
    'lines: while at < bytes.len() {
        let here = bytes.split_at(at).1;
        let size = first_line(here);
        if begins_section(here.split_at(size.text).0) {
            return at;
        }
        at += size.whole;
    }
    at
}

/// The input that a text of fewer than 2^32 bytes is, or its first fault.
pub fn read_input(alloc: Global, text: &str) -> Result<Input, InputError>
    requires { length text.now < 2 ^ 32 }
    ensures reading { Reads (input_of text.now) result }
    ensures kept { IfOk result (λ input. AreScripts input.sessions) }
{
    let bytes = text.as_bytes();
    let module_end = module_len(bytes) as u32;
    let sessions = read_scripts(alloc, bytes, module_end)?;
    Ok(Input {
        module_end,
        sessions,
    })
}
