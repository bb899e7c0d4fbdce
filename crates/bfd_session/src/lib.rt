//! One session of any kind, and one event of it.
//!
//! `Session::step` is an own event: a packet, a returned echo, a command or a question. `Session::tick` is an event of
//! the clock. `Session::due` answers when the next tick is needed. A tick before that changes nothing, and calling twice
//! does no harm.
//!
//! A session is point-to-point, an initiator, a head or a tail, and one record to those above: its configuration, its
//! variables and its Echo function. The definitions of an event, of the due tick and of soundness are functions of it, and which kinds keep
//! what is seen here alone. With them stand the rows by which arrivals are selected, what an arrival resolves to, and the one list of all
//! tests that may discard an arrival.
//!
//! It stands on `bfd_p2p`, `bfd_echo`, `bfd_sbfd`, `bfd_mp` and `bfd_demux` and what those stand on. It promises that a step
//! and a tick are the definitions `next`, `emits` and `reply` of `specs/`, that sessions stay sound, that after a tick
//! nothing that was due is left, and that no call but `rows_of` and `table_of` allocates memory.
#![tactic(auto)]

mod answering;
mod echoing;
mod event;
mod head;
mod initiator;
mod law;
mod plain;
mod point;
mod rows;
mod session;
mod showing;
mod table;
mod tail;

pub use event::{Answer, Event, SessionConfig, Shown};
pub use law::{event_laws, tick_laws};
pub use rows::{row_of, row_of_reflector, rows_of, table_of};
pub use session::Session;
pub use table::{Roster, Table};
