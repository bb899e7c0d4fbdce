//! A world of sessions, event by event.
//!
//! [`Instance`] is a table and its sessions with their timers: one event in, outputs and an answer, and no journal. A packet is
//! screened and selected, and is then an own event of the session that it names; a tick is an event of every session, by ascending
//! discriminator. The C library holds one; no job of the program does.
//!
//! It stands on `bfd_session`, `bfd_shard` and `bfd_script`. It promises that what each event gives is what `specs/World.antt`
//! says, which knows of no table, no index and no due tick. That definition is also the promise of every replay, and
//! `replayed` is the text of its report.
#![tactic(auto)]

mod instance;
mod room;
mod world;

pub use instance::{Instance, table};
