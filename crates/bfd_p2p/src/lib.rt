//! The point-to-point session of BFD as a machine without a clock, without IO and without timers (RFC 5880 section
//! 6.8, RFC 5881, RFC 5883).
//!
//! An event of a session is: `begin`; `settle`, which does what has come due; then a packet by `accept`, a command by
//! `command`, or nothing; then `finish`. Moments are handed in, and what the session sends is appended to a list.
//!
//! The state machine (RFC 5880 section 6.2); an arrow names the received states that cause it:
//!
//! ```text
//!                              +--+
//!                              |  | UP, ADMIN DOWN, TIMER
//!                              |  V
//!                      DOWN  +------+  INIT
//!               +------------|      |------------+
//!               |            | DOWN |            |
//!               |  +-------->|      |<--------+  |
//!               |  |         +------+         |  |
//!               |  |                          |  |
//!               |  |               ADMIN DOWN,|  |
//!               |  |ADMIN DOWN,          DOWN,|  |
//!               |  |TIMER                TIMER|  |
//!               V  |                          |  V
//!             +------+                      +------+
//!        +----|      |                      |      |----+
//!    DOWN|    | INIT |--------------------->|  UP  |    |INIT, UP
//!        +--->|      | INIT, UP             |      |<---+
//!             +------+                      +------+
//! ```
//!
//! It stands on `bfd_rules` and `bfd_auth`. It promises that each call is its part of an event by the definitions of
//! `specs/`, for all sound variables, every packet that passes the header tests, every TTL and every command; that
//! soundness is kept; and that no call allocates memory.
#![tactic(auto)]

mod again;
mod beating;
mod commanding;
mod finishing;
mod frame;
mod machine;
mod receiving;
mod settling;
mod transmitting;

pub use machine::P2p;
pub use receiving::control_port;
