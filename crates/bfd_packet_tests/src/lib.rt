//! Tests of the calls that a packet goes through up to its session: numbers, the codec, authentication, echo packets, the table of
//! sessions; sources and sinks over std, and links over UDP. One module has the tests of one crate, by its name.
//!
//! It stands on the crates that it tests. Nothing stands on it, and it has no code but tests.
#![tactic(auto)]

#[cfg(test)]
mod auth;
#[cfg(test)]
mod demux;
#[cfg(test)]
mod echo;
#[cfg(test)]
mod edge;
#[cfg(test)]
mod net;
#[cfg(test)]
mod num;
#[cfg(test)]
mod packet;
#[cfg(test)]
mod rules;
