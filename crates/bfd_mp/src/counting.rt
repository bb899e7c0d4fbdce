//! How a head reports a changed interval: the count of packets with P that are still to be sent (RFC 8562 section 5.10).
ghost use Rattle.std.specs.Prelude.{◌≡◌};
ghost use Rattle.bfd_mp.specs.Counting as counting;

use bfd_rules::{Poll, Vars};

/// Packets with P are still to be sent, or none.
fn poll_of(left: u8) -> Poll
    ensures { result ≡ counting.poll_of left }
{
    if left == 0 { Poll::Idle } else { Poll::Wanted }
}

/// The variables with so many packets with P still to be sent; once there are none the configured interval is in use.
pub fn counted(left: u8, v: Vars) -> Vars
    ensures { result ≡ counting.counted left v }
{
    Vars {
        left,
        poll: poll_of(left),
        used_tx: if left == 0 { v.tx } else { v.used_tx },
        ..v
    }
}
