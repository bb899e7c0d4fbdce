//! The traits of the outside.
ghost use Rattle.std.specs.Prelude.{◌≡◌, ◌⊎◌, ℕ, ◌<◌, [], IfOk, List, None, Option, false, length, Ok};
ghost use Rattle.std.specs.Io.{ReadsAtMost, WritesAtMost};
ghost use Rattle.std.specs.Io.KnownBytes.{ReadConsumes, WriteAppends};
ghost use Rattle.bfd_edge.specs.Faults.{HasCause, Rose};

use crate::fault::Fault;

/// Something that bytes come from, as standard input does.
///
/// Its count of faults never falls, and stands still at 2^64 - 1.
pub trait Source {
    // The bytes that are left, where the source reports them.
    ghost left: { Self → Option (List ℕ) };

    // How often it failed.
    ghost faults: { Self → ℕ };

    /// Reads some bytes into `buf`, and answers how many. `Ok(0)` for a buffer that isn't empty is the end.
    ///
    /// `Failed` comes only where the count of faults rose, and `Ok` and `Memory` leave it as it was. After a refusal no byte
    /// of the source is used up.
    fn read(&mut self, buf: &mut [u8]) -> Result<usize, Fault>
        ensures bound { ReadsAtMost result buf.new }
        ensures bytes { ReadConsumes (left self.old) (left self.new) result buf.new }
        ensures cause { HasCause (faults self.old) (faults self.new) result }
        ensures calm { IfOk result (λ count. faults self.new ≡ faults self.old) };
}

/// Something that accepts bytes, as standard output does.
///
/// Its count of faults never falls, and stands still at 2^64 - 1.
pub trait Sink {
    // The bytes that were accepted, where the sink reports them.
    ghost taken: { Self → Option (List ℕ) };

    // How often it failed.
    ghost faults: { Self → ℕ };

    /// Whether anybody reads the bytes that it accepts. A text for a sink that nobody reads needn't be made.
    fn is_read(&self) -> bool
        ensures { result ≡ false → taken self.now ≡ None };

    /// Accepts a prefix of `piece`, and answers how many bytes that is.
    ///
    /// `Failed` comes only where the count of faults rose, and an `Ok(0)` for a piece that isn't empty is a fault too.
    /// Any other `Ok`, and `Memory`, leave the count as it was. After a refusal no byte was accepted.
    fn write(&mut self, piece: &[u8]) -> Result<usize, Fault>
        ensures bound { WritesAtMost result piece.now }
        ensures bytes { WriteAppends (taken self.old) (taken self.new) result piece.now }
        ensures cause { HasCause (faults self.old) (faults self.new) result }
        ensures none { 0 < length piece.now → result ≡ Ok 0 → Rose (faults self.old) (faults self.new) }
        ensures calm { IfOk result (λ count. (0 < count) ⊎ (piece.now ≡ []) → faults self.new ≡ faults self.old) };
}
