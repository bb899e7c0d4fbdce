//! The packets of Bidirectional Forwarding Detection: what every other crate speaks of.
//!
//! Here stand the control packet (RFC 5880 section 4), the tests that discard a packet (section 6.8.6) by
//! name and the first seven of them as code, the addresses of an arrival and of a datagram, the keys of a
//! session (section 6.7), and the bounded buffers that hold bytes.
//!
//! It stands on `byteorder` and `arrayvec` alone. It promises that `header_test` and `read` are the
//! standard's sentences for every payload and port, that `write` is the standard's layout, that
//! `write_plain` gives the same without a section, that what is written reads back, and that only `Payload::keep`
//! and copies allocate memory.
#![tactic(auto)]

mod arrival;
mod bits;
mod buffers;
mod control;
mod discard;
mod keys;
mod names;
mod reading;
mod writing;

pub use arrival::{Addr, Arrival, Datagram, Port, SOURCE_PORT};
pub use bits::Bits128;
pub use buffers::{AuthBytes, Payload, Wire};
pub use control::{Control, State};
pub use discard::Test;
pub use keys::{AuthType, Key, KeyList, Keys, Secret, SeqState};
pub use reading::{fields, header_test, read};
pub use writing::{write, write_plain};
