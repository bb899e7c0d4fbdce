//! What a replay leaves: its counts, and its closed shards.
ghost use Rattle.std.specs.Prelude.{ℕ, ◌≡◌, ◌≤◌, ◌<◌, ◌*◌, IfOk, length, slice_index_or, sum_by};
ghost use Rattle.bfd_rules.specs.Quantities as quantities;
ghost use Rattle.bfd_shard.specs.Shard.{Shard, IsShard};
ghost use Rattle.bfd_replay.specs.Counts.{one_up, sum_to};

use crate::report::Counts;
use bfd_packet::State;
use bfd_session::Session;
use bfd_shard::{Seat, ShardState};
use bfd_wheel::Timers;
use std::snapshot::Snapshot;

/// The closed shards of a replay, by number, for clauses alone.
pub type ClosedShards<W> = Snapshot<Vec<ShardState<W>>>;

/// What a replay leaves.
#[derive(Drop)]
pub struct Replayed<W: Timers> {
    pub counts: Counts,
    /// How many sessions are Up at the end.
    pub up: u32,
    pub closed: ClosedShards<W>,
}

/// Counts a session that is Up.
fn counted(session: &Session) -> u32
    ensures value { result ≡ one_up session.now }
    ensures few { result ≤ 1 }
{
    match session.vars().state {
        State::Up => 1,
        State::AdminDown | State::Down | State::Init => 0,
    }
}

/// How many of the sessions are Up.
fn up_in(sessions: &[Seat]) -> u32
    requires few { length sessions.now ≤ 65536 }
    ensures value { result ≡ sum_by one_up sessions.now }
    ensures few { result ≤ 65536 }
{
    let mut count = 0u32;
    for seat in sessions {
        count += counted(seat.session());
    }
    count
}

/// How many of a shard's sessions are Up.
fn up_of<W: Timers>(state: &ShardState<W>) -> u32
    ensures value { result ≡ sum_by one_up state.now.sessions }
    ensures kept { IsShard state.now }
    ensures few { result ≤ 65536 }
{
    up_in(state.sessions())
}

/// How many sessions of all shards are Up.
pub(crate) fn up_all<W: Timers>(states: &Vec<ShardState<W>>) -> u32
    requires few { length states.now.items ≤ 64 }
    ensures value { (d : Shard) → result
        ≡ sum_to (λ k. sum_by one_up (slice_index_or states.now.items k d).sessions) (length states.now.items) }
    ensures kept { (k : ℕ) (d : Shard) → k < length states.now.items → IsShard (slice_index_or states.now.items k d) }
{
    let mut count = 0u32;
    for k in 0..states.len() {
        count += up_of(&states[k]);
    }
    count
}
