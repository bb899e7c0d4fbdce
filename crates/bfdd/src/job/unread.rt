//! A sink for a report of which nobody reads more than its counts.
ghost use Rattle.std.specs.Prelude.{ℕ, ◌≡◌, ◌⊎◌, ◌<◌, [], false, IfOk, None, Ok, length};
ghost use Rattle.std.specs.Io.{WritesAtMost};
ghost use Rattle.std.specs.Io.KnownBytes.{WriteAppends};
ghost use Rattle.bfd_edge.specs.Faults.{HasCause, Rose};

use bfd_edge::{Fault, Sink};

/// Accepts every byte, keeps none and never fails.
#[derive(Drop)]
pub(crate) struct Unread {}

impl Sink for Unread {
    ghost taken = { λ s. None };

    ghost faults = { λ s. 0 };

    fn is_read(&self) -> bool
        ensures { result ≡ false }
    {
        false
    }

    fn write(&mut self, piece: &[u8]) -> Result<usize, Fault>
        ensures all { result ≡ Ok (length piece.now) }
        ensures bound { WritesAtMost result piece.now }
        ensures bytes { WriteAppends None None result piece.now }
        ensures cause { HasCause 0 0 result }
        ensures none { 0 < length piece.now → result ≡ Ok 0 → Rose 0 0 }
        ensures calm { IfOk result (λ count. (0 < count) ⊎ (piece.now ≡ []) → ◌≡◌ {A = ℕ} 0 0) }
    {
        Ok(piece.len())
    }
}
