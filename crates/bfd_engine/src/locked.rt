//! The value behind a shard's lock.

use bfd_session::SessionConfig;
use bfd_shard::{Entry, ShardState};
use bfd_turn::Recorded;
use bfd_wheel::Timers;
use std::collections::LinkedList;

/// What no turn changes of a shard: the configurations of its sessions, by place, and how many entries its journal accepts. It
/// is for clauses alone: no value of it is made.
pub struct Base {
    pub configs: LinkedList<SessionConfig>,
    pub limit: u64,
}

/// A shard as the value of a lock: its notes are its journal, and each names its event's caller. It lies in a
/// box, since a turn moves the value out of the lock and in again.
#[derive(Drop)]
pub struct Locked<W: Timers> {
    pub(crate) shard: Box<ShardState<W>>,
}

impl<W: Timers> Recorded for Locked<W> {
    type Note = Entry;

    type Base = Base;

    ghost use Rattle.bfd_session.specs.Kinds.{configs_of};

    ghost noted = { λ kept. kept.shard.value.journal };

    ghost caller = { λ entry. entry.caller };

    ghost base = { λ kept. record { configs = configs_of kept.shard.value.sessions; limit = kept.shard.value.limit } };

    fn notes(&self) -> &[Entry] {
        self.shard.journal()
    }

    fn caller_of(note: &Entry) -> u32 {
        note.caller
    }
}
