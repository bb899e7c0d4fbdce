//! A script, replayed on shards.
//!
//! The lines of a script are planned: each shard has a queue of its events, and what matches no session is reported separately. The
//! sessions stand in an engine of 1 to 64 shards, which are made alongside. Each of 2 to 64 workers has a pass of the engine and shards of
//! its own, in a thread of its own if one is available; what each shard's events give is reported in a part, and the parts are gathered
//! into one report. `replay_by_workers` writes it to a sink.
//!
//! Modules: `beginning` makes shards and plan in parallel, `working` is one worker's turns, `jobs` all workers,
//! `passes` their passes, `running` the engine from opening to closing, `finish` puts the parts in order, `replaying` is all of it.
//!
//! It promises that the text is that of `bfd_instance`'s `specs/World.antt`,
//! which knows of no shard, no worker and no lock, for every number of shards and workers; that the counts are `totals`; and that each
//! shard was built from the sessions that are dealt to it and has, in the order of the script, their own events and every tick in its
//! journal, all by its one worker. A worker can't know that nobody else takes a turn of its shard: the closed engine shows it,
//! and so that no journal was full and no lock spent.

mod beginning;
mod finish;
mod jobs;
mod passes;
mod replaying;
mod running;
mod working;

pub(crate) use replaying::replay_by_workers;
