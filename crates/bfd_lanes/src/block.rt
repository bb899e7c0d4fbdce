//! One block of eight due ticks.
ghost use Rattle.std.specs.Prelude.{◌≡◌, ℕ, ◌+◌, ◌<◌, ◌≤◌, false, length, get_or, take, drop, slice_index, IsTrue, nat_le, ◌↔◌};

use std::simd::prelude::*;

/// How many numbers a block has.
pub(crate) const LANES: usize = 8;

/// Whether none of the eight numbers from place `at` on is at most `t`.
pub(crate) fn none_come(dues: &[u64], at: usize, t: u64) -> bool
    requires { at + 8 ≤ length dues.now }
    ensures { IsTrue result → (k : ℕ) → at ≤ k → k < at + 8 → nat_le (slice_index dues.now k) t ≡ false }
{
    let lanes = u64x8::from_slice(&dues[at..]);
    lanes.simd_le(u64x8::splat(t)).to_bitmask() == 0
}
