ghost use Rattle.std.specs.Prelude.{◌≡◌, ℕ, ◌<◌, ◌≤◌, List, length, take, None, IfOk, OnErr, MatchResult};
ghost use Rattle.scev_io.specs.Faults.{HasCause, one_more};

use crate::stream::{Failed, Sink, Source};
use std::io::{Read, Stdin, Stdout, Write};
use std::marker::Model;

/// Standard input, which contracts see as the count of its faults.
#[derive(Drop)]
pub struct StdSource {
    input: Stdin,
    faults: u64,
}

impl Model for StdSource {
    ghost use Rattle.std.specs.Prelude.{ℕ};

    ghost Value = { ℕ };

    ghost view = { λ s. s.faults };
}

impl StdSource {
    /// The source of standard input, with no fault so far.
    pub fn new(input: Stdin) -> StdSource
        ensures { result ≡ 0 }
    {
        StdSource { input, faults: 0 }
    }
}

impl Source for StdSource {
    ghost left = { λ _. None };

    ghost faults = { λ faults. faults };

    fn take(&mut self, buf: &mut [u8]) -> Result<usize, Failed>
        ensures bound { IfOk result (λ n. n ≤ length buf.new) }
        ensures cause { HasCause self.old self.new result }
        ensures counted { MatchResult result (λ _. self.new ≡ self.old) (λ _. self.new ≡ one_more self.old) }
    {
        match self.input.read(buf) {
            Ok(count) => Ok(count),
            Err(_) => {
                self.faults = self.faults.saturating_add(1);
                Err(Failed)
            }
        }
    }
}

/// Standard output, which contracts see as the count of its faults.
#[derive(Drop)]
pub struct StdSink {
    output: Stdout,
    faults: u64,
}

impl Model for StdSink {
    ghost use Rattle.std.specs.Prelude.{ℕ};

    ghost Value = { ℕ };

    ghost view = { λ s. s.faults };
}

impl StdSink {
    /// The sink of standard output, with no fault so far.
    pub fn new(output: Stdout) -> StdSink
        ensures { result ≡ 0 }
    {
        StdSink { output, faults: 0 }
    }
}

impl Sink for StdSink {
    ghost written = { λ _. None };

    ghost faults = { λ faults. faults };

    fn put(&mut self, bytes: &[u8]) -> Result<usize, Failed>
        ensures bound { IfOk result (λ n. n ≤ length bytes.now) }
        ensures some { IfOk result (λ n. 0 < length bytes.now → 0 < n) }
        ensures cause { HasCause self.old self.new result }
        ensures counted { MatchResult result (λ _. self.new ≡ self.old) (λ _. self.new ≡ one_more self.old) }
    {
        match self.output.write(bytes) {
            Ok(count) if count > 0 || bytes.is_empty() => Ok(count),
            _ => {
                self.faults = self.faults.saturating_add(1);
                Err(Failed)
            }
        }
    }
}
