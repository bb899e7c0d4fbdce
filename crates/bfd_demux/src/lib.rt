//! Which session an arrival is for (RFC 5880 sections 6.3 and 6.8.6, RFC 5881, RFC 5883, RFC 7880, RFC 8562).
//!
//! A table of up to 65,536 rows has the sessions and reflectors, by discriminator and by addresses. It is built once, where two lists
//! ([`Names`], [`Addresses`]) may be made in parallel; `screen` then gives for each arrival the one row that it names, or the first of the
//! port's tests that it fails, those on the header among them.
//!
//! It stands on `bfd_packet` for arrivals and the tests on their headers, on `bfd_num` for the counter of steps, and on `byteorder` and
//! `thiserror`. It promises that `build` refuses exactly the rows that make no table, but when out of memory, and names the first fault;
//! that no rows are no fault and need no memory; that `screen` is the standard's choice for every table and arrival, and needs no memory;
//! and that a lookup counts 17 steps at most, of which the search counts one for each entry that it looks at.
#![tactic(auto)]

mod demux;
mod fault;
mod guess;
mod lists;
mod name;
mod repeats;
mod row;
mod table;
mod target;

pub use demux::Demux;
pub use fault::{AddFault, BuildFault};
pub use lists::{Addresses, Names};
pub use row::{Row, RowKind};
pub use target::Target;
