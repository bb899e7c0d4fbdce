//! What the shards of a replay report of their events, gathered into one report.
//!
//! A replay deals a table's sessions out to shards, and the events to the shards that have their sessions. Each shard reports what its
//! events gave in a [`Part`], as text in pieces: all lines of an own event, or one line for each output of a tick, each piece with the
//! number of its event and, of a tick, the discriminator that it names. The report takes the least piece of all parts, by event and
//! then by discriminator, until none is left. A last part has what was reported of events that match no session. `give_all` gives the same
//! to a sink as it is gathered, and [`write_all`] writes any text. [`report_by_threads`] cuts the parts at places of the report, without a
//! copy, and gathers what is between two places in a thread of its own, if one is available; [`write_each`] writes the resulting texts.
//!
//! It knows no lock. It promises that of sessions that are dealt out each shard's are what the whole table's would be; that the report of
//! the shards' parts is the report of the whole table, byte for byte, for every number of shards, also where threads gather it; and that a
//! sink accepts that report where it doesn't fail and memory doesn't run out, and a prefix of it in any case.

mod counts;
mod cutting;
mod gathering;
mod giving;
mod key;
mod law;
mod output;
mod part;
mod queue;
mod reporting;
mod rest;
mod threads;

pub(crate) use counts::added;
pub use counts::{Counts, dropped, sent};
pub(crate) use giving::give_all;
pub use law::{dealing_laws, piece_laws};
pub use output::{give_on, write_all, write_each};
pub use part::Part;
pub use queue::{Numbered, queue_event};
pub use reporting::write_last;
pub use threads::report_by_threads;
