//! A script, replayed by one caller, whose report is written as it comes.
//!
//! An engine is opened for the script, and each line is a turn of its shard, or a tick of all shards, in the caller's thread, in the order
//! of the file: [`happen`] finds what the line is and does it. What it gave is appended to a text as the lines of a report, and a text of
//! 64 KiB goes to the sink, and a new one begins. So no more of the report is held than that and the lines of one event. `report_to` is all
//! of it.
//!
//! Modules: `opening` opens the engine of a script, `turning` is one line, which a watch uses too, `ticking` a tick of several shards,
//! whose parts are put together, `pending` the text and the counts so far, `reporting` the whole.
//!
//! It promises that a sink which doesn't fail accepts the report of `bfd_instance`'s `specs/World.antt`, byte for byte, as the replays on
//! several shards give it too; that any sink accepts a prefix of it; and that each shard, once closed, was built from the sessions that are
//! dealt to it and has in its journal their events and every tick, in the order of the script, all by this caller. A caller can't
//! know that nobody else takes a turn: the closed engine shows it.

mod opening;
mod pending;
mod reporting;
mod ticking;
mod turning;

pub use opening::opened;
pub(crate) use reporting::report_to;
pub use turning::happen;
