ghost use Rattle.std.specs.Prelude.{◌≡◌, ℕ, ◌+◌, ◌<◌, ◌≤◌, ◌==◌, ◌||◌, ◌&&◌, List, [], ◌++◌, length, take, drop, min, nat_lt, Some, IfOk, OnErr, MatchResult, is_err};
ghost use Rattle.std.specs.List.{list_any};
ghost use Rattle.scev_io.specs.Faults.{HasCause, one_more};

use crate::stream::{Failed, Sink, Source};
use std::alloc::{AllocError, Global};
use std::marker::Model;

/// A source in memory, which fails at the calls that it is told.
#[derive(Debug, Drop)]
pub struct MemSource {
    bytes: Vec<u8>,
    at: usize,
    failing: Vec<u32>,
    calls: u64,
    faults: u64,
}

impl Model for MemSource {
    ghost use Rattle.std.specs.Prelude.{◌≤◌, drop, vec_len};
    ghost use Rattle.scev_io.specs.Memory.{MemoryInput};

    ghost Value = { MemoryInput };

    ghost view = { λ s. record { rest = drop s.at s.bytes.items; failing = s.failing.items; calls = s.calls; faults = s.faults } };

    ghost invariant = { λ s. s.at ≤ vec_len s.bytes };
}

/// Whether a call is one of those that fail.
fn is_listed(failing: &[u32], call: u64) -> bool
    ensures { result ≡ list_any (λ listed. listed == call) failing.now }
{
    failing.iter().any(|listed| u64::from(*listed) == call)
}

impl MemSource {
    /// A source of these bytes. The calls of `take` that `failing` lists fail, counted from 0.
    pub fn new(bytes: Vec<u8>, failing: Vec<u32>) -> MemSource
        ensures { result ≡ record { rest = bytes.items; failing = failing.items; calls = 0; faults = 0 } }
    {
        MemSource {
            bytes,
            at: 0,
            failing,
            calls: 0,
            faults: 0,
        }
    }

    /// The bytes still to come.
    pub fn rest(&self) -> &[u8]
        ensures { result.now ≡ self.now.rest }
    {
        self.bytes.as_slice().split_at(self.at).1
    }

    /// How many calls have failed.
    pub fn fault_count(&self) -> u64
        ensures { result ≡ self.now.faults }
    {
        self.faults
    }
}

impl Source for MemSource {
    ghost left = { λ s. Some s.rest };

    ghost faults = { λ s. s.faults };

    fn take(&mut self, buf: &mut [u8]) -> Result<usize, Failed>
        ensures bound { IfOk result (λ n. n ≤ length buf.new) }
        ensures gives { IfOk result (λ n. self.old.rest ≡ take n buf.new ++ self.new.rest) }
        ensures ends { IfOk result (λ n. n ≡ 0 → 0 < length buf.new → self.new.rest ≡ []) }
        ensures keeps { OnErr result (self.new.rest ≡ self.old.rest) }
        ensures cause { HasCause self.old.faults self.new.faults result }
        // It fails exactly at the calls in its list, and else gives all that is left and fits.
        ensures fails { is_err result ≡ list_any (λ listed. listed == self.old.calls) self.old.failing }
        ensures count { IfOk result (λ n. n ≡ min (length self.old.rest) (length buf.old)) }
        ensures listed { self.new.failing ≡ self.old.failing }
        ensures calls { self.new.calls ≡ one_more self.old.calls }
        ensures counted { MatchResult result (λ _. self.new.faults ≡ self.old.faults) (λ _. self.new.faults ≡ one_more self.old.faults) }
    {
        let call = self.calls;
        self.calls = call.saturating_add(1);
        if is_listed(self.failing.as_slice(), call) {
            self.faults = self.faults.saturating_add(1);
            return Err(Failed);
        }
        let (_, rest) = self.bytes.as_slice().split_at(self.at);
        let count = rest.len().min(buf.len());
        let (given, _) = rest.split_at(count);
        buf[..count].copy_from_slice(given);
        self.at += count;
        Ok(count)
    }
}

/// A sink in memory with a fixed room, which fails at the calls that it is told.
#[derive(Debug, Drop)]
pub struct MemSink {
    bytes: Vec<u8>,
    room: usize,
    piece: u32,
    failing: Vec<u32>,
    calls: u64,
    faults: u64,
}

impl Model for MemSink {
    ghost use Rattle.std.specs.Prelude.{◌≤◌, ◌+◌, vec_len, vec_capacity};
    ghost use Rattle.scev_io.specs.Memory.{MemoryOutput};

    ghost Value = { MemoryOutput };

    ghost view = { λ s. record { written = s.bytes.items; room = s.room; piece = s.piece; failing = s.failing.items; calls = s.calls; faults = s.faults } };

    ghost invariant = { λ s. vec_len s.bytes + s.room ≤ vec_capacity s.bytes };
}

impl MemSink {
    /// A sink that holds `room` bytes in all and takes at most `piece` in one call. The calls of
    /// `put` that `failing` lists fail, counted from 0. The room is taken at once.
    pub fn new(
        alloc: Global,
        room: u32,
        failing: Vec<u32>,
        piece: u32,
    ) -> Result<MemSink, AllocError>
        ensures { IfOk result (λ s. s ≡ record { written = []; room = room; piece = piece; failing = failing.items; calls = 0; faults = 0 }) }
    {
        let bytes = Vec::with_capacity(alloc, room as usize)?;
        Ok(MemSink {
            bytes,
            room: room as usize,
            piece,
            failing,
            calls: 0,
            faults: 0,
        })
    }

    /// The bytes that it holds.
    pub fn written(&self) -> &[u8]
        ensures { result.now ≡ self.now.written }
    {
        self.bytes.as_slice()
    }

    /// How many calls have failed.
    pub fn fault_count(&self) -> u64
        ensures { result ≡ self.now.faults }
    {
        self.faults
    }
}

impl Sink for MemSink {
    ghost written = { λ s. Some s.written };

    ghost faults = { λ s. s.faults };

    fn put(&mut self, bytes: &[u8]) -> Result<usize, Failed>
        ensures bound { IfOk result (λ n. n ≤ length bytes.now) }
        ensures some { IfOk result (λ n. 0 < length bytes.now → 0 < n) }
        ensures puts { IfOk result (λ n. self.new.written ≡ self.old.written ++ take n bytes.now) }
        ensures keeps { OnErr result (self.new.written ≡ self.old.written) }
        ensures cause { HasCause self.old.faults self.new.faults result }
        // It fails exactly at the calls in its list and where it could take nothing of a piece that
        // isn't empty, and else takes all that fits.
        ensures fails { is_err result ≡ (list_any (λ listed. listed == self.old.calls) self.old.failing
            || (nat_lt 0 (length bytes.now) && (min self.old.piece self.old.room == 0))) }
        ensures count { IfOk result (λ n. n ≡ min (length bytes.now) (min self.old.piece self.old.room)) }
        ensures room { MatchResult result (λ n. self.new.room + n ≡ self.old.room) (λ _. self.new.room ≡ self.old.room) }
        ensures piece { self.new.piece ≡ self.old.piece }
        ensures listed { self.new.failing ≡ self.old.failing }
        ensures calls { self.new.calls ≡ one_more self.old.calls }
        ensures counted { MatchResult result (λ _. self.new.faults ≡ self.old.faults) (λ _. self.new.faults ≡ one_more self.old.faults) }
    {
        let call = self.calls;
        self.calls = call.saturating_add(1);
        let most = self.room.min(self.piece as usize);
        if is_listed(self.failing.as_slice(), call) || (!bytes.is_empty() && most == 0) {
            self.faults = self.faults.saturating_add(1);
            return Err(Failed);
        }
        let (taken, _) = bytes.split_at(bytes.len().min(most));
        self.bytes.extend_from_slice(taken).unwrap();
        self.room -= taken.len();
        Ok(taken.len())
    }
}
