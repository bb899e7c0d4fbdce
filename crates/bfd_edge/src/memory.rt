//! The outside over memory.
ghost use Rattle.std.specs.Prelude.{◌≡◌, ◌≢◌, ◌⊎◌, ℕ, ◌<◌, ◌++◌, [], List, Option, Some, length, min, IfOk, IsErrOf, IsTrue, ◌↔◌, Ok, take};
ghost use Rattle.std.specs.Prelude.{drop, true, false, None};
ghost use Rattle.std.specs.Io.{ReadsAtMost, WritesAtMost};
ghost use Rattle.std.specs.Io.KnownBytes.{ReadConsumes, WriteAppends};
ghost use Rattle.bfd_edge.specs.Faults.{HasCause, Rose, raised};
ghost use Rattle.bfd_edge.specs.Memory.{read_answer, after_read, filled, AnswersWrite};

use crate::fault::Fault;
use crate::outside::{Sink, Source};
use std::alloc::Global;
use std::marker::Model;

/// A source over bytes in memory. Contracts see it as the record `Given`.
#[derive(Drop)]
pub struct MemSource {
    bytes: Vec<u8>,
    at: usize,
    chunk: usize,
    calls: u64,
    fails: Vec<u64>,
    faults: u64,
}

impl Model for MemSource {
    ghost use Rattle.std.specs.Prelude.{Some, drop, ◌≤◌, ◌≢◌, vec_len};
    ghost use Rattle.bfd_edge.specs.Memory.{Given};

    ghost Value = { Given };

    ghost view = { λ s. record {
      left = drop s.at s.bytes.items;
      chunk = s.chunk;
      calls = s.calls;
      fails = s.fails.items;
      faults = s.faults;
    } };

    ghost invariant = { λ s. (s.at ≤ vec_len s.bytes) × (s.chunk ≢ 0) };
}

impl MemSource {
    /// A source that gives these bytes, at most `chunk` in one call, and fails at the calls named, counted from 0.
    pub fn make(bytes: Vec<u8>, chunk: usize, fails: Vec<u64>) -> Self
        requires { chunk ≢ 0 }
        ensures { result ≡ record { left = bytes.items; chunk = chunk; calls = 0; fails = fails.items; faults = 0 } }
    {
        MemSource {
            bytes,
            at: 0,
            chunk,
            calls: 0,
            fails,
            faults: 0,
        }
    }

    /// The bytes that are left.
    pub fn as_slice(&self) -> &[u8]
        ensures { result.now ≡ self.now.left }
    {
        &self.bytes[self.at..]
    }
}

/// Copies as many bytes as fit to the start of `to`, at most `chunk`, and answers how many.
fn copy_front(from: &[u8], to: &mut [u8], chunk: usize) -> usize
    ensures count { result ≡ min (min (length to.old) chunk) (length from.now) }
    ensures copied { to.new ≡ take result from.now ++ drop result to.old }
    ensures parts { from.now ≡ take result to.new ++ drop result from.now }
    ensures end { chunk ≢ 0 → result ≡ 0 → 0 < length to.new → from.now ≡ [] }
{
    let count = to.len().min(chunk).min(from.len());
    to[..count].copy_from_slice(&from[..count]);
    count
}

impl Source for MemSource {
    ghost left = { λ s. Some s.left };

    ghost faults = { λ s. s.faults };

    /// Gives as much as `chunk` and `buf` allow, or fails where this call is one of those named.
    fn read(&mut self, buf: &mut [u8]) -> Result<usize, Fault>
        ensures answer { result ≡ read_answer self.old (length buf.old) }
        ensures state { self.new ≡ after_read self.old (length buf.old) }
        ensures copied { buf.new ≡ filled self.old buf.old }
        ensures bound { ReadsAtMost result buf.new }
        ensures bytes { ReadConsumes (Some self.old.left) (Some self.new.left) result buf.new }
        ensures cause { HasCause self.old.faults self.new.faults result }
        ensures calm { IfOk result (λ count. self.new.faults ≡ self.old.faults) }
    {
        let call = self.calls;
        self.calls = call.saturating_add(1);
        if self.fails.contains(&call) {
            self.faults = self.faults.saturating_add(1);
            return Err(Fault::Failed);
        }
        let count = copy_front(&self.bytes[self.at..], buf, self.chunk);
        self.at += count;
        Ok(count)
    }
}

/// A sink that keeps in memory what it accepts. Contracts see it as the record `Taken`.
#[derive(Drop)]
pub struct MemSink {
    bytes: Vec<u8>,
    chunk: usize,
    calls: u64,
    fails: Vec<u64>,
    faults: u64,
}

impl Model for MemSink {
    ghost use Rattle.std.specs.Prelude.{Some, ◌≢◌};
    ghost use Rattle.bfd_edge.specs.Memory.{Taken};

    ghost Value = { Taken };

    ghost view = { λ s. record {
      bytes = s.bytes.items;
      chunk = s.chunk;
      calls = s.calls;
      fails = s.fails.items;
      faults = s.faults;
    } };

    ghost invariant = { λ s. s.chunk ≢ 0 };
}

impl MemSink {
    /// A sink that accepts at most `chunk` bytes in one call, and fails at the calls named, counted from 0.
    pub fn make(alloc: Global, chunk: usize, fails: Vec<u64>) -> Self
        requires { chunk ≢ 0 }
        ensures { result ≡ record { bytes = []; chunk = chunk; calls = 0; fails = fails.items; faults = 0 } }
    {
        MemSink {
            bytes: Vec::new(alloc),
            chunk,
            calls: 0,
            fails,
            faults: 0,
        }
    }

    /// The bytes that were accepted.
    pub fn as_slice(&self) -> &[u8]
        ensures { result.now ≡ self.now.bytes }
    {
        self.bytes.as_slice()
    }
}

impl Sink for MemSink {
    ghost taken = { λ s. Some s.bytes };

    ghost faults = { λ s. s.faults };

    fn is_read(&self) -> bool
        ensures read { result ≡ true }
        ensures unread { result ≡ false → Some self.now.bytes ≡ None }
    {
        true
    }

    /// Accepts as much as `chunk` allows, or fails where this call is one of those named. `Memory` leaves all but the
    /// number of calls as it was.
    fn write(&mut self, piece: &[u8]) -> Result<usize, Fault>
        ensures answer { AnswersWrite self.old piece.now result self.new }
        ensures bound { WritesAtMost result piece.now }
        ensures bytes { WriteAppends (Some self.old.bytes) (Some self.new.bytes) result piece.now }
        ensures cause { HasCause self.old.faults self.new.faults result }
        ensures none { 0 < length piece.now → result ≡ Ok 0 → Rose self.old.faults self.new.faults }
        ensures calm { IfOk result (λ count. (0 < count) ⊎ (piece.now ≡ []) → self.new.faults ≡ self.old.faults) }
    {
        let call = self.calls;
        self.calls = call.saturating_add(1);
        if self.fails.contains(&call) {
            self.faults = self.faults.saturating_add(1);
            return Err(Fault::Failed);
        }
        let count = piece.len().min(self.chunk);
        if self.bytes.extend_from_slice(&piece[..count]).is_err() {
            return Err(Fault::Memory);
        }
        Ok(count)
    }
}
