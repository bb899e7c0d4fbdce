//! bfd_script: the packet file and the report.
//!
//! A packet file is a text of lines: the version, a table of sessions and reflectors, `run`, event lines and `end`. This crate reads the
//! whole of it, and is the home of the text that a report gives each event. [`read`] answers the script that the bytes spell, or the first
//! faulty line with that line's first fault: `specs/Reading.antt` says which, as a definition over lists that knows nothing of the code. A
//! script that it answers is sound, as `specs/Sound.antt` says: sessions and reflectors ascend by discriminator, each is within its ranges,
//! and no two sessions have the same selecting addresses. [`lines`] appends the report lines of one event, which `specs/Report.antt`
//! defines.
//!
//! Layers, lowest first: [`fields`] (lines, and the fields that they are cut into), [`line`] (what one line says), `places`, `rows`,
//! `table` and `pool` (the sessions and the reflectors so far), `state` (what is kept from line to line), `reading` (one line), `ahead`
//! (the usual lines that come next), `reader` (the text, piece by piece); alongside them `report`. The one spelling of a script is for
//! `bfd_serve`.
//!
//! It stands on `bfd_session` and what that stands on, and on `byteorder`, `hex`, `itoa` and `memchr`.
#![tactic(auto)]

mod ahead;
pub mod fields;
pub mod line;
mod places;
mod pool;
mod reader;
mod reading;
mod report;
mod rows;
mod script;
mod state;
mod table;

pub use reader::{Reader, read};
pub use report::{lines, output_line};
pub use script::Script;
pub use table::keys_in;
