//! Sessions with a record of each: what happened to it since it was made.
//!
//! [`Recorded`] is an [`Instance`](bfd_instance::Instance) that keeps alongside each session a [`Record`](kept::Record): counts of packets
//! received, sent and dropped, and of changes of state, the moments of the last packet and the last change, and the peer's last
//! diagnostic. They stand outside the session's variables, so that no event depends on them. [`Recorded::look`] reads a session with its
//! record, settles nothing and changes nothing.
//!
//! The world is the instance's, event by event. The records are what `specs/Records.antt` says, over the answer and the outputs of each
//! event, and a look returns what `specs/Looks.antt` says.

mod boxed;
mod kept;
mod looking;
mod noting;
mod recorded;

pub use looking::Look;
pub use recorded::Recorded;
