//! `scevd` reads an input from standard input, writes what its sessions answer to standard output,
//! and ends with the number of its status.
#![tactic(auto)]

use scev_server::{OpenGate, Status, StdSink, StdSource, serve};
use std::env::{self, Env};
use std::io::{self, ErrorKind, Stdin, Stdout};
use std::process::ExitCode;
use std::thread::Threads;

/// The program's arguments without its name.
fn words<R: Env + AllocGlobal>(rt: &R) -> io::Result<Vec<String>> {
    Ok(env::args(rt)?.skip(1).collect(rt.alloc())?)
}

/// Serves standard input and output. Arguments that are no text aren't taken.
fn run<R: Env + AllocGlobal + Threads + Sync>(rt: &R, input: Stdin, output: Stdout) -> Status {
    let words = match words(rt) {
        Ok(words) => words,
        Err(error) if error.kind() == ErrorKind::OutOfMemory => return Status::NoMemory,
        Err(_) => return Status::BadWords,
    };
    let mut src = StdSource::new(input);
    let mut out = StdSink::new(output);
    serve(
        rt,
        rt.alloc(),
        words.as_slice(),
        &mut src,
        &mut out,
        &OpenGate,
    )
}

fn main(rt: HostRuntime) -> ExitCode {
    ExitCode::from(run(&rt, rt.stdin(), rt.stdout()).number())
}
