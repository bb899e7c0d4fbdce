//! Where a row may stand in an index: the first place that a search looks at. It is right where sessions are numbered, or
//! addressed, one after another, and else only a guess. What the first entry and the last have is kept alongside the index when it
//! is built, so that a guess looks at no entry.

ghost use Rattle.std.specs.Prelude.{◌≤◌, length};

use crate::name::Name;
use crate::row::RowKind;
use bfd_packet::{Addr, Port};

/// What the first entry of an index and the last one have.
#[derive(Clone, Copy, Debug, PartialEq, Eq)]
pub struct Ends {
    low: u32,
    high: u32,
}

impl Ends {
    /// The discriminators of the first name and the last.
    pub fn of_names(names: &[(Name, Option<Port>)]) -> Ends {
        match (names.first(), names.last()) {
            (Some((first, _)), Some((last, _))) => Ends {
                low: first.discr(),
                high: last.discr(),
            },
            _ => Ends { low: 0, high: 0 },
        }
    }

    /// What grows in the first row with addresses and in the last.
    pub fn of_addresses(addresses: &[(RowKind, u32)]) -> Ends {
        match (addresses.first(), addresses.last()) {
            (Some((first, _)), Some((last, _))) => Ends {
                low: neighbour(first),
                high: neighbour(last),
            },
            _ => Ends { low: 0, high: 0 },
        }
    }

    /// Where `at` would stand among so many numbers that grow evenly between the ends.
    fn evenly(&self, at: u32, count: usize) -> usize
        requires { count ≤ 65536 }
    {
        if self.high <= self.low || at < self.low {
            return 0;
        }
        let width = u64::from(self.high - self.low);
        let places = u64::from(at - self.low) * (count as u64);
        (places / (width + 1)) as usize
    }
}

/// By the discriminator, among names with these ends.
pub fn guess_by_discr(names: &[(Name, Option<Port>)], ends: &Ends, discr: u32) -> usize
    requires { length names.now ≤ 65536 }
{
    ends.evenly(discr, names.len())
}

/// The last 32 bits of an address.
fn low_word(addr: &Addr) -> u32 {
    match addr {
        Addr::V4(number) => *number,
        Addr::V6(number) => (number.low & 0xffff_ffff) as u32,
    }
}

/// What grows from one neighbour to the next: the end of the peer's address, and of a tail the head's discriminator.
fn neighbour(kind: &RowKind) -> u32 {
    match kind {
        RowKind::Single { remote, .. } | RowKind::Multi { remote, .. } => low_word(remote),
        RowKind::Tail { head, .. } => *head,
        RowKind::Initiator | RowKind::Reflect | RowKind::Head => 0,
    }
}

/// By the peer, among rows with these ends.
pub fn guess_by_peer(addresses: &[(RowKind, u32)], ends: &Ends, kind: &RowKind) -> usize
    requires { length addresses.now ≤ 65536 }
{
    ends.evenly(neighbour(kind), addresses.len())
}
