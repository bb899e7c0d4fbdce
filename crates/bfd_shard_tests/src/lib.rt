//! Tests of the calls of timers, of a full shard, and of two peers. One module has the tests of one crate, by its name, and `every`
//! all short schedules of `bfd_pair`.
//!
//! It stands on the crates that it tests and on what those stand on. Nothing stands on it, and it has no code but tests.
#![tactic(auto)]

#[cfg(test)]
mod every;
#[cfg(test)]
mod levels;
#[cfg(test)]
mod pair;
#[cfg(test)]
mod schedule;
#[cfg(test)]
mod shard;
#[cfg(test)]
mod wheel;
