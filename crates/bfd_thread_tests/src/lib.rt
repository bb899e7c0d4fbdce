//! Tests of a lock, of an engine, of a watch that follows a shard, and of a replay by workers.
//!
//! [`embedding`] has the threads that share an engine, each with a pass of its own, as a daemon would: it is proved, and tests run it.
//! `turn` has the tests of `bfd_turn`, `watch` one of `bfd_watch`, and `workers` one of `bfd_replay`. Of an engine `engine` has calls
//! one after another, and the fixture; `eight` eight threads on three shards, `daemon` a packet thread and a timer thread, from the
//! opening of the engine to its closing, and `clients` a client that follows a shard alongside them. `bfdd` has the tests of `bfd_serve`.
//!
//! It stands on the crates that it tests and on what those stand on. Nothing stands on it.
#![tactic(auto)]

#[cfg(test)]
mod clients;
#[cfg(test)]
mod daemon;
#[cfg(test)]
mod eight;
pub mod embedding;
#[cfg(test)]
mod engine;
#[cfg(test)]
mod turn;
#[cfg(test)]
mod watch;
#[cfg(test)]
mod workers;
