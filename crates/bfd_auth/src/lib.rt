//! Authentication of control packets (RFC 5880 section 6.7): Simple Password, Keyed and Meticulous Keyed
//! MD5, Keyed and Meticulous Keyed SHA1.
//!
//! It stands on `bfd_packet` for the packet and its keys, whose types it passes on, and on `md5` and `sha1`
//! for the digests. It promises that `verify` answers the first test that a packet's section fails, and else
//! the sequence state after it; that `seal` makes the standard's bytes; and that what is sealed is accepted
//! by a receiver with the same keys in whose window the number lies. Neither allocates memory.
//!
//! Where the RFC leaves room, this is the project's choice: the window ends at three times the packet's own
//! Detect Mult, and each type but Simple Password sends the next number with each packet. No security of MD5
//! and SHA-1 is claimed.
#![tactic(auto)]

mod checking;
mod digests;
mod sealing;

pub use bfd_packet::{AuthType, Key, KeyList, Keys, Secret, SeqState};
pub use checking::verify;
pub use sealing::seal;
