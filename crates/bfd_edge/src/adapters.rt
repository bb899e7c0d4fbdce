//! The trusted edge over std's readers and writers.
ghost use Rattle.std.specs.Prelude.{◌≡◌, ◌≢◌, ◌⊎◌, Err, ℕ, ◌<◌, [], IfOk, List, OnErr, Option, length, Ok, true, false, None};
ghost use Rattle.std.specs.Io.{ReadsAtMost, WritesAtMost};
ghost use Rattle.std.specs.Io.KnownBytes.{ReadConsumes, WriteAppends};
ghost use Rattle.bfd_edge.specs.Faults.{HasCause, Rose, raised};

use crate::fault::Fault;
use crate::outside::{Sink, Source};
use std::io::{Read, Write};

/// A source over one of std's readers. It reports what that reader reports, which is nothing for standard input or a file.
#[derive(Drop)]
pub struct StdSource<R: Read> {
    reader: R,
    faults: u64,
}

impl<R: Read> StdSource<R> {
    /// A source with a count of faults of 0.
    pub fn make(reader: R) -> Self
        ensures { result ≡ record { reader = reader; faults = 0 } }
    {
        StdSource { reader, faults: 0 }
    }
}

impl<R: Read> Source for StdSource<R> {
    ghost left = { λ s. R.remaining s.reader };

    ghost faults = { λ s. s.faults };

    /// Reads what the reader gives. Its every error is `Failed`, and counts as one fault.
    fn read(&mut self, buf: &mut [u8]) -> Result<usize, Fault>
        ensures bound { ReadsAtMost result buf.new }
        ensures bytes { ReadConsumes (R.remaining self.old.reader) (R.remaining self.new.reader) result buf.new }
        ensures cause { HasCause self.old.faults self.new.faults result }
        ensures calm { IfOk result (λ count. self.new.faults ≡ self.old.faults) }
        ensures once { OnErr result (self.new.faults ≡ raised self.old.faults) }
        ensures no_memory_taken { result ≢ Err Fault.Memory }
    {
        match self.reader.read(buf) {
            Ok(count) => Ok(count),
            Err(_) => {
                self.faults = self.faults.saturating_add(1);
                Err(Fault::Failed)
            }
        }
    }
}

/// A sink over one of std's writers. It reports what that writer reports, which is nothing for standard output or a file.
#[derive(Drop)]
pub struct StdSink<W: Write> {
    writer: W,
    faults: u64,
}

impl<W: Write> StdSink<W> {
    /// A sink with a count of faults of 0.
    pub fn make(writer: W) -> Self
        ensures { result ≡ record { writer = writer; faults = 0 } }
    {
        StdSink { writer, faults: 0 }
    }
}

impl<W: Write> Sink for StdSink<W> {
    ghost taken = { λ s. W.contents s.writer };

    ghost faults = { λ s. s.faults };

    fn is_read(&self) -> bool
        ensures read { result ≡ true }
        ensures unread { result ≡ false → W.contents self.now.writer ≡ None }
    {
        true
    }

    /// Writes what the writer accepts. Its every error is `Failed`, and counts as one fault, as an `Ok(0)` does for a piece
    /// that isn't empty.
    fn write(&mut self, piece: &[u8]) -> Result<usize, Fault>
        ensures bound { WritesAtMost result piece.now }
        ensures bytes { WriteAppends (W.contents self.old.writer) (W.contents self.new.writer) result piece.now }
        ensures cause { HasCause self.old.faults self.new.faults result }
        ensures none { 0 < length piece.now → result ≡ Ok 0 → Rose self.old.faults self.new.faults }
        ensures calm { IfOk result (λ count. (0 < count) ⊎ (piece.now ≡ []) → self.new.faults ≡ self.old.faults) }
        ensures once { OnErr result (self.new.faults ≡ raised self.old.faults) }
        ensures once_for_none { 0 < length piece.now → result ≡ Ok 0 → self.new.faults ≡ raised self.old.faults }
        ensures no_memory_taken { result ≢ Err Fault.Memory }
    {
        match self.writer.write(piece) {
            Ok(count) => {
                if count == 0 && !piece.is_empty() {
                    self.faults = self.faults.saturating_add(1);
                }
                Ok(count)
            }
            Err(_) => {
                self.faults = self.faults.saturating_add(1);
                Err(Fault::Failed)
            }
        }
    }
}
