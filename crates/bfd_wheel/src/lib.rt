//! Timers: for each of a fixed number of ids an optional due tick, and the ids that have come, in order.
//!
//! `PlainTimers` keeps the due ticks in one list. `HashedWheel` keeps them in 4,096 slots as well, so that an advance
//! by a tick looks at two short lists. It stands on bfd_lanes and bfd_num. Both forms promise the same: they are the
//! list of their optional due ticks, an advance takes exactly those at most its tick, and no calls but `make` and
//! `insert` allocate memory.
#![tactic(auto)]

mod anew;
mod change;
mod form;
mod hashed;
mod links;
mod list;
mod place;
mod plain;
mod take;

pub use change::detach;
pub use form::Timers;
pub use hashed::HashedWheel;
pub use links::{Node, link, loops, loops_again, unlink};
pub use list::{due_at, insert_due, no_dues, remove_due};
pub use plain::PlainTimers;
