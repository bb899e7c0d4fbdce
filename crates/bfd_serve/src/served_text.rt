//! The served text of shards.
//!
//! A shard's journal says what happened to it, and nothing of what that gave. [`served`] rebuilds each shard from the
//! configurations of its sessions, gives it the journal's entries one by one, and writes for each the turn and the report lines of
//! what it gave; a last line has the numbers of entries, of packets sent and of sends that failed.
//!
//! Modules: `turn_lines` is the line of one entry's turn, `entry_lines` one entry and what it gave, `serving` one shard and all.
//!
//! It promises that the text is that of `specs/Served.antt`, a definition over configurations and journals alone: it knows no lock, no
//! link and no thread.

mod entry_lines;
mod serving;
mod turn_lines;

pub use serving::served;
