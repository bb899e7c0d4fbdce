//! The draws that the jitter of periodic packets is computed from.
ghost use Rattle.std.specs.Prelude.{◌≡◌};
ghost use Rattle.bfd_num.specs.Numbers as numbers;

/// The draw that follows `j`: `1664525 * j + 1013904223`, modulo 2^32 (RFC 5880 section 6.8.7 asks for jitter and
/// leaves its source open).
#[tactic(auto, unfolding(crate::specs::Numbers::next_j))]
pub fn next_j(j: u32) -> u32
    ensures { result ≡ numbers.next_j j }
{
    j.wrapping_mul(1_664_525).wrapping_add(1_013_904_223)
}
