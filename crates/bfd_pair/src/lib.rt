//! Two point-to-point sessions that talk to each other over a path that may lose, repeat and reorder every packet.
//!
//! A `Pair` has two sessions, Left and Right, and keeps every packet that either has sent. Nothing is delivered by itself:
//! an event gives a side one packet of all that the other side has ever sent, in any order, again or never. Ticks and
//! commands are events too. [`schedule`] plays events that one number decides, and writes the line that sums them up.
//!
//! It stands on `bfd_session` and `bfd_demux` and what those stand on, and on `bfd_script`, which spells a line. It promises that the
//! sessions and the packets sent are those of the pair run, a fold of session steps without any of the program's bookkeeping, and the
//! handshake: whatever the events, a side comes Up only by a packet of the other side in Init or Up which names it and which was sent
//! when, or after, the other side handled a packet of this one.
#![tactic(auto)]

mod event;
mod law;
mod pair;
mod peer;
pub mod schedule;

pub use event::{PairAnswer, PairEvent, PairFault, Side};
pub use law::{handshake_law, up_law};
pub use pair::Pair;
