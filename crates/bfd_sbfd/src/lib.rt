//! Seamless BFD (RFC 7880, with the port of RFC 7881): the initiator, a session that asks a reflector, and the reflector,
//! which answers without one.
//!
//! An event of an initiator is: `begin`; `settle`, which does what has come due; then an answer by `accept`, a command by
//! `command`, or nothing; then `finish`. Moments are handed in, and what the session sends is appended to a list. A
//! reflector is a function of one arrival and the pool: `reflect`.
//!
//! The initiator's state machine (RFC 7880 section 7.3.1); an arrow names the received states that cause it, and in
//! AdminDown, which a command enters and leaves, no received state does anything:
//!
//! ```text
//!                             +--+
//!              DOWN, INIT,    |  |
//!              ADMIN DOWN     |  V
//!                        +------+   UP                +------+
//!                        |      |-------------------->|      |----+
//!                        | DOWN |                     |  UP  |    | DOWN, INIT, UP
//!                        |      |<--------------------|      |<---+
//!                        +------+   ADMIN DOWN,       +------+
//!                                   TIMER
//! ```
//!
//! It stands on `bfd_rules`. It promises that each call of `Initiator` is its part of an event by the definitions of
//! `specs/`, for all sound variables, every packet that passes the header tests and every command; that soundness is kept;
//! that `reflect` is its definition for every ascending pool and every arrival; and that no call allocates memory.
#![tactic(auto)]

mod commanding;
mod config;
mod finishing;
mod frame;
mod initiator;
mod law;
mod receiving;
mod reflecting;
mod settling;
mod transmitting;
mod waiting;

pub use config::InitiatorConfig;
pub use initiator::Initiator;
pub use law::initiator_laws;
pub use reflecting::{Reflector, reflect};
pub use waiting::{deadline, wait};
