//! Shards behind ruled locks: what a daemon is to embed.
//!
//! An `Engine` is opened with sessions and reflectors. Its sessions are dealt out to 1 to 64 shards, each behind a lock of its own. `open`
//! makes one shard after another; `make_shards` makes them in parallel, each in a thread of its own if one is available, and `of_shards`
//! opens an engine of them, when it is known how many entries their journals accept. A caller asks for turns with an
//! `EnginePass`. A call that needs a shard takes its turn, makes room for the entry, applies the event, and gives the turn back, after a
//! fault too: `receive` for an arrival, `command` and `show` by discriminator, `advance` for a tick. What matches no session takes no turn.
//! `split` makes a pass for a further caller, which has the next number; `join` joins it into that of caller 0; `close` gives the shards.
//! `journal_from` reads a shard's history; `try_hold` and `let_go` hold a turn from call to call. `each` calls what it is given in
//! parallel, and `all_there` returns the values where nothing was refused.
//!
//! It stands on `bfd_shard` and `bfd_turn`, on `bfd_demux` and `bfd_sbfd` for arrivals, on what those stand on, and on
//! `thiserror`. It promises, for every form of timers, what one turn adds: what the pass has seen of the shard ends with this very
//! event, others' entries alone stand before it, and the outputs and the answer are those of that last entry after the entries
//! before it; after a fault no entry is added, and Full and Spent have their causes. An arrival is discarded only at the first test
//! that it fails, and an advance expires exactly the sessions whose Detection Time has come. A pass that was joined is kept with
//! its number and its calls, and a closed shard has exactly the history that was seen, with each caller's calls. It promises
//! nothing of waiting.
#![tactic(auto)]

mod asking;
mod beside;
mod engine;
mod fault;
mod holding;
mod joining;
mod journal;
mod law;
mod locked;
mod making;
mod open;
mod pass;
mod passing;
mod receive;
mod turn;

pub use beside::{all_there, each};
pub use engine::Engine;
pub use fault::{EngineFault, OpenFault};
pub use holding::{Hold, HoldFault};
pub use law::turn_laws;
pub use locked::{Base, Locked};
pub use making::make_shards;
pub use pass::EnginePass;
