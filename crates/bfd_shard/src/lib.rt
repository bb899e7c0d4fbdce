//! A shard: sessions that share timers, a last tick and a journal of their events. It is the one value that a lock holds.
//!
//! `ShardState::apply` is one event: an own event of the session at a place, or a tick, which is an event of every
//! session. Only the sessions that are due are touched at a tick, since a tick before that does nothing to a session. The
//! event is moved into the journal, and its outputs are appended by ascending place. All memory is allocated before, by `make`,
//! `make_share`, `raise_limit` and `prepare`.
//!
//! It stands on `bfd_session`, on `bfd_wheel` by its trait `Timers` alone, and on what those stand on. It promises, for
//! every form of timers, that each session is what its own events and the ticks in the journal make of it, whatever other
//! sessions stand alongside it; that the timers are the sessions' due ticks; that a tick expires exactly the sessions whose
//! Detection Time has expired by it, and leaves nothing that is due; and that of sessions that are dealt out to shards
//! each is what it would be in one shard with all.
#![tactic(auto)]

mod entry;
mod law;
mod own;
mod seat;
mod sessions;
mod shard;
mod start;
mod ticking;

pub use entry::{Entry, Full, ShardEvent};
pub use law::{expiry_laws, history_laws, own_laws};
pub use seat::Seat;
pub use sessions::Sessions;
pub use shard::ShardState;
