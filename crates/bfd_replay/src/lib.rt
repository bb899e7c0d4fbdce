//! A script, replayed.
//!
//! [`replay_to`] replays one to a sink.
//!
//! [`plan`] finds what each line is, an event that matches no session or one of the table's sessions, and deals these out to the queues of
//! shards. [`worker`] has the sessions in an engine, whose shards receive their queues' events, each by its one worker. [`report`]
//! gathers what the shards report into one report. [`stream`] is a replay by one worker, line by line, whose report is written as it comes.
//!
//! Lowest first: `report`, `plan`, and on both `stream` and `worker`, of which [`replay_to`] uses one. Each promises the report of
//! `bfd_instance`'s `specs/World.antt`, which knows of no shard, no worker and no lock.
//!
//! It stands on `bfd_engine` for the turns, on `bfd_instance` for that definition, on `bfd_script` and on `bfd_edge` for gate and sink.
#![tactic(auto)]

mod counting;
mod front;
pub mod plan;
pub mod report;
pub mod stream;
mod worker;

pub use counting::{ClosedShards, Replayed};
pub use front::replay_to;
