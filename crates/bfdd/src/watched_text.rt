//! A link group over the sessions of a script.
//!
//! [`watched`] replays a script, event by event, and passes the changes of each on to a link group; what the group writes is the watched
//! text. [`first_unknown`] finds a member that names no session. `specs/Members.antt` says what the group is at the start, and what
//! its text is, over the definitions of `bfd_instance` and of this crate.

mod change_text;
mod following;
mod members;
mod merging;

pub use change_text::watched;
pub use members::first_unknown;
