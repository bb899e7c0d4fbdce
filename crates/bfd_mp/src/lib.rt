//! Multipoint BFD (RFC 8562): the head, which sends one stream of packets to a group, and the tail, which hears it and
//! answers nothing.
//!
//! An event of a head or a tail is: `begin`; `settle`, which does what has come due; then for a tail a packet by `accept`,
//! for both a command by `command`, or nothing; then `finish`. Moments are handed in, and what the session emits is
//! appended to a list. No packet is an event of a head.
//!
//! A head is Up, or AdminDown between two commands. The tail's state machine (RFC 8562 section 5.5); an arrow names the
//! received states that cause it, and in AdminDown, which a command enters and leaves, no received state does anything:
//!
//! ```text
//!                             +--+
//!              DOWN, INIT,    |  |
//!              ADMIN DOWN     |  V
//!                        +------+   UP                +------+
//!                        |      |-------------------->|      |----+
//!                        | DOWN |                     |  UP  |    | INIT, UP
//!                        |      |<--------------------|      |<---+
//!                        +------+   ADMIN DOWN,       +------+
//!                                   DOWN, TIMER
//! ```
//!
//! It stands on `bfd_rules`. It promises that each call of `Head` and of `Tail` is its part of an event by the definitions
//! of `specs/`, for all sound variables, every packet with M set that passes the header tests and every command; that
//! soundness is kept; that a tail emits no packet; and that no call allocates memory.
#![tactic(auto)]

mod commanding;
mod config;
mod counting;
mod detecting;
mod finishing;
mod head;
mod law;
mod receiving;
mod settling;
mod tail;
mod transmitting;
mod waiting;

pub use config::{HeadConfig, TailConfig};
pub use head::Head;
pub use law::{head_laws, tail_laws};
pub use tail::Tail;
pub use waiting::{deadline, wait};
