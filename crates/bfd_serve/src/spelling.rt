//! The one spelling of a script.
//!
//! [`write`] gives a script as the bytes of a packet file: `specs/Written.antt` says which, as a definition over lists. It
//! promises that `read` of `bfd_script` gives that script back, for each script that `read` gives. [`line_of`] appends the line of
//! an event of a shard: `specs/Happening.antt` says which.
//!
//! Layers, lowest first: `fields` (words and addresses), `rows`, `keys` (the lines of one session or reflector), `table` (those
//! of all), `events` and `happening` (an event of a shard), `versions` (the first version that has lines for all of a script),
//! `writing` (the whole text).

mod events;
mod fields;
mod happening;
mod keys;
mod rows;
mod table;
mod versions;
mod writing;

pub use happening::line_of;
pub use writing::write;
