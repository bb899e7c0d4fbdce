//! An engine as a daemon embeds it: threads that share it by reference, each with a pass of its own.
//!
//! A `Job` is a thread's pass, its calls, and what it saw of them. The job of a packet thread has arrivals and commands, that of
//! a timer thread has ticks of every shard. `add_job` makes a pass for one, `at_once` runs any number of them in parallel, and
//! `finish` joins the passes and closes the engine.
//!
//! It promises that each job comes back in its place, with its number and no
//! turn held; that what its thread saw is, call by call, what the engine promises of these calls in their order; and that a closed
//! engine has each job's calls. It promises nothing of waiting.

mod passes;
mod threads;

pub use passes::{add_job, finish};
pub use threads::{Call, Job, Saw, at_once};
