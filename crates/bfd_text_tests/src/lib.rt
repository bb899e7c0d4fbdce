//! Tests of the calls that read and write texts: scripts and their one spelling, a load, and the served text.
//!
//! It stands on the crates that it tests and on what those stand on. Nothing stands on it, and it has no code but tests.
#![tactic(auto)]

#[cfg(test)]
mod load;
#[cfg(test)]
mod script;
#[cfg(test)]
mod served;
