//! What a machine says of a packet.

use bfd_packet::Test;

/// What became of a packet that selection handed to a session (RFC 5880 section 6.8.6).
#[derive(Clone, Copy, Debug, PartialEq, Eq)]
pub enum Verdict {
    /// Every test let it pass.
    Accepted,
    /// This test refused it, the first that it fails.
    Dropped(Test),
}
