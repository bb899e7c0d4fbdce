//! What a client receives, and why it may not.

use bfd_packet::State;
use std::alloc::AllocError;

/// A session changed its state (RFC 5882 section 3).
#[derive(Clone, Copy, Debug, PartialEq, Eq)]
pub struct Change {
    /// The number of the entry in the shard's history, from 1.
    pub number: u64,
    /// The local discriminator of the session.
    pub discr: u32,
    pub old: State,
    pub new: State,
    /// The diagnostic that came with the new state.
    pub diag: u8,
}

/// Why an entry wasn't accepted. The watch is then as before.
#[derive(Clone, Copy, Debug, PartialEq, Eq)]
pub enum WatchFault {
    /// So many entries were accepted, which is the limit.
    Full(usize),
    /// Out of memory.
    Memory,
}

impl From<AllocError> for WatchFault {
    ghost use Rattle.std.specs.Prelude.{◌≡◌};
    ghost use Rattle.bfd_watch.specs.declared.change.WatchFault.TheVariants.{Memory};

    ghost from_gives = { λ _ e. e ≡ Memory };

    fn from(_: AllocError) -> WatchFault {
        WatchFault::Memory
    }
}
