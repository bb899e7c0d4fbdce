//! The engine as a C library, `libbfdd`.
//!
//! A program in C keeps a handle, which is closed or owns an engine: the sessions and reflectors of a table, and what the last
//! event gave. `bfdd_open` and `bfdd_open_session` open it, `bfdd_close` closes it. `bfdd_receive`, `bfdd_tick`, `bfdd_command`
//! and `bfdd_show` are one event each. `bfdd_next` then returns the event's outputs one by one, `bfdd_answer` what it was
//! answered, and `bfdd_due` the tick that is needed next. `bfdd_add` and `bfdd_remove` let sessions come and go, `bfdd_add_reflector` and
//! `bfdd_remove_reflector` reflectors. `bfdd_state` is a look at a session. `include/bfdd.h` is the C side.
//!
//! It stands on `bfd_instance`, whose `Instance` is a world of sessions that goes event by event, on `bfd_levels` for its timers, on
//! `bfd_script` for the lines of a table, and on what those stand on. Its module `records` keeps a record of each session. It promises
//! that each call is that world's event, or the code that says why it is none, exactly by its cause; that nothing changes where a call
//! is refused; and that what is returned is what the event gave, field by field. No call asks anything of a handle: one of zeros is
//! closed, and refused.
//!
//! What C owes, and no proof can see, stands in the header.
#![tactic(auto)]

mod apart;
mod asking;
mod engine;
mod fields;
mod handle;
mod joining;
mod looking;
mod many;
mod names;
mod naming;
mod opening;
mod owned;
mod packing;
mod reading;
mod records;
mod sizes;
mod structs;
mod version;
mod wire;

pub use asking::{bfdd_command, bfdd_receive, bfdd_show, bfdd_tick};
pub use engine::Engine;
pub use fields::Fields;
pub use handle::Handle;
pub use joining::{bfdd_add, bfdd_add_reflector, bfdd_remove, bfdd_remove_reflector};
pub use looking::{SessionState, bfdd_state};
pub use many::{Arrived, bfdd_outputs, bfdd_packets};
pub use names::bfdd_find_name;
pub use opening::{Complaint, bfdd_close, bfdd_open, bfdd_open_session};
pub use owned::{Opaque, Owned};
pub use reading::{bfdd_answer, bfdd_due, bfdd_next};
pub use structs::{Answered, Output};
pub use version::bfdd_version;
pub use wire::{Address, Packet};
