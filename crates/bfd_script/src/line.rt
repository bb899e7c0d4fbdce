//! What one line of a packet file says.
//!
//! A line begins with a [`Word`], by [`word_named`], which may stand at some [`Place`] of the text alone. [`read_values`]
//! answers the [`Entry`] that the values behind it say, or the first fault: `specs/Entries.antt` says which, and
//! `specs/Ranges.antt` what is true of each. An entry is a row of the table (a session or a reflector), keys of a session, or
//! an event, a [`Line`]; a line between them has its word alone. [`rx_entry`] is the same for `rx`, which most lines are.
//!
//! Layers, lowest first: `words` (the versions, the words and where they may stand), `points`, `seamless` and `trees` (the
//! values of a table line), `secrets`, `arrivals` and `verbs` (those of keys, of a packet and of a command), `entries` (the
//! whole line).

mod arrivals;
mod entries;
mod points;
mod seamless;
mod secrets;
mod trees;
mod usual;
mod usual_rows;
mod verbs;
mod words;

pub use entries::{Entry, Line, read_values, rx_entry};
pub(crate) use points::read_point;
pub use secrets::key_fault;
pub(crate) use usual::event_at;
pub(crate) use usual_rows::point_at;
pub use verbs::Verb;
pub use words::{Place, Version, Word, word_named};
