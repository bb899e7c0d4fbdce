//! What a session keeps and what follows from it: the configuration, the variables of RFC 5880 section 6.8.1,
//! the quantities that sections 6.8.2 to 6.8.7 derive from them, and the frame in which every rule of an event
//! stands.
//!
//! It stands on `bfd_num` and `bfd_packet`. Variables are plain records, so each quantity and each rule is a
//! function of them, by a definition in `specs/`. It promises that every quantity is its definition, that no
//! sum overflows for sound variables, and that the rules of renewal, which every other rule is followed by,
//! keep variables steady. No call but `Outs::make` and `Outs::take` is refused.
#![tactic(auto)]

mod commands;
mod config;
mod frame;
mod jitter;
mod outputs;
mod quantities;
mod renewal;
mod variables;
mod verdict;

pub use commands::{Cmd, Refusal};
pub use config::{Config, LEAST_INTERVAL, MOST_INTERVAL, Role, is_interval};
pub use frame::{announces, begins, changes, draw, drawn, enters, is_unannounced, sends, stamped};
pub use jitter::pick;
pub use outputs::{Out, Outs};
pub use quantities::{
    SLOW_TX, adv_tx, deadline, demand_here, demand_there, detection_time, is_admin_down, may_send,
    seq_deadline, tx_interval,
};
pub use renewal::renew;
pub use variables::{Mark, Poll, Vars};
pub use verdict::Verdict;
