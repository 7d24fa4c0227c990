use crate::{Command, InputError, Reply, answer_text, command, read_input};
use std::alloc::Global;
use std::process::Abort;
use std::test::Fail;

fn is_at(found: &Command) -> bool {
    match found {
        Command::At(func, value, number, iteration) => {
            func.as_str() == "f"
                && value.name.as_str() == "v"
                && value.nth == 2
                && value.result == 1
                && *number == 3
                && *iteration == u64::MAX
        }
        _ => false,
    }
}

fn is_run(found: &Command) -> bool {
    match found {
        Command::Run(_, budget, args, replies) => {
            *budget == 65_536
                && args.as_slice() == [1, u64::MAX, 0].as_slice()
                && replies.as_slice() == [7].as_slice()
        }
        _ => false,
    }
}

#[test]
fn a_command_is_read(rt: HostRuntime) -> Result<(), Fail> {
    match command(rt.alloc(), "\tat @f  %v!2#01 #3 18446744073709551615 ") {
        Ok(Some(found)) => assert!(rt; is_at(&found)),
        Ok(None) => assert!(rt; false, "no command"),
        Err(_) => assert!(rt; false, "no memory"),
    }
    match command(rt.alloc(), "run @f 65536 1 -1 -0 / 7") {
        Ok(Some(found)) => assert!(rt; is_run(&found)),
        Ok(None) => assert!(rt; false, "no command"),
        Err(_) => assert!(rt; false, "no memory"),
    }
    Ok(())
}

/// The place of the fault of a text, and whether it is a limit that is passed.
fn same_fault(
    rt: &impl Abort,
    alloc: Global,
    text: &str,
    at: u32,
    limit: bool,
) -> Result<(), Fail> {
    assert!(rt; text.len() < 1000);
    match read_input(alloc, text) {
        Err(InputError::Fault(fault)) => {
            assert_eq!(rt; fault.at, at, "at {text}");
            assert!(rt; fault.limit == limit, "at {text}");
        }
        _ => assert!(rt; false, "no fault in {text}"),
    }
    Ok(())
}

#[test]
fn an_input_is_read(rt: HostRuntime) -> Result<(), Fail> {
    let text = "// m\r\n== session a\r\n \t\n//x y\npin latest\n== session b_2\nhold h @f %v";
    match read_input(rt.alloc(), text) {
        Ok(input) => {
            assert_eq!(rt; input.module_end, 6);
            let sessions = input.sessions.into_vec();
            assert_eq!(rt; sessions.len(), 2);
            for (script, name) in sessions.iter().zip(&["a", "b_2"]) {
                assert_eq!(rt; script.name.as_str(), *name);
                assert_eq!(rt; script.commands.as_slice().len(), 1);
            }
        }
        Err(_) => assert!(rt; false, "no input"),
    }
    for (text, at, limit) in [
        ("== session a\n== session a\n", 13, false),
        ("== session a\nprint @f\r", 13, false),
        ("== session a\n == session b", 13, false),
        ("== session a\nhold h @f %v\nhold h @f %v", 26, false),
        ("== session a\npin 000000000000000000001", 13, false),
        ("== session a\nrun @f 65536\nrun @f 1", 26, true),
        ("== session a\nrun @f 65537", 13, false),
    ] {
        same_fault(&rt, rt.alloc(), text, at, limit)?;
    }
    Ok(())
}

#[test]
fn answers_are_lines(rt: HostRuntime) -> Result<(), Fail> {
    match answer_text(rt.alloc(), &Reply::NotYet(0)) {
        Ok(text) => assert_eq!(rt; text.as_str(), "not yet: front 0\n"),
        Err(_) => assert!(rt; false, "no text"),
    }
    Ok(())
}
