//! The Echo function of a session over one hop (RFC 5880 sections 6.4, 6.8.5, 6.8.8 and 6.8.9, RFC 5881 section 4).
//!
//! A session sends packets to its own address, and the peer's forwarding plane returns them: that shows the path to the
//! peer and back without the peer's BFD. `Echo` keeps what such a session remembers while the function runs: when it last
//! sent a packet, when one last came back, and which sequence numbers are outstanding. Whether it should run is the
//! session's to say; `is_echo_wanted` and `echo_interval` have the part of it that two intervals decide.
//!
//! It stands on `bfd_num`, on `bfd_packet` for addresses, datagrams and buffers, and on `byteorder`. It promises that
//! each call is its definition in `specs/` for every echo whose moments are below 2^60; that a return counts if and
//! only if its number is outstanding, across the wrap at 2^32; that failure comes before sending, and each exactly when it
//! is due; that `due` is the least tick at which `settle` does something; and that no call allocates memory.
#![tactic(auto)]

mod echo;
mod law;
mod packet;
mod timing;

pub use echo::{Echo, EchoResult};
pub use law::{due_laws, moment_laws, packet_laws, sequence_laws};
pub use packet::echo_datagram;
pub use timing::{echo_interval, is_echo_wanted};
