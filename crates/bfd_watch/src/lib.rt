//! State changes for clients (RFC 5882), and link groups (the use of RFC 7130).
//!
//! A client follows the sessions of a shard by a cursor over the shard's history: a [`Watch`] has a shard of its own, which
//! is given the history's entries one by one, and reports the changes of each. Who follows never touches the shard that is
//! followed. A [`LinkGroup`] is up while enough of its members are Up; it receives the changes, and writes the watched text:
//! the changes of each event, and each move of the group.
//!
//! It stands on `bfd_shard` and what that stands on, and on `bfd_script` for how a line is spelled. It promises that what a watch has
//! reported after any entries is exactly the changes of that history, each once and in order; that the lines of a group are those of
//! the definition; and that after a refusal all is as before.
#![tactic(auto)]

mod change;
mod group;
mod law;
mod text;
mod watch;

pub use change::{Change, WatchFault};
pub use group::{LinkGroup, Member};
pub use law::{changes_laws, watched_laws};
pub use watch::{Watch, changes_of};
