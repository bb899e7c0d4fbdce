//! A serve run, from its script to the served text.
//!
//! [`serve_script`] opens the links 0 to the number of workers, opens an engine of the script's sessions, runs the timer and the workers in
//! parallel, closes the engine, shuts every link, and reports the journals of the closed shards.
//!
//! Modules: `linking` opens and shuts the links, `copying` copies the sessions for the text, `opening` opens the engine, `running`
//! goes from it to the closed shards, `finish` says how a run ended, `serving` is all of it.
//!
//! It promises, for every interleaving: that every link that was opened is shut, after a refusal too;
//! that the text is that of the closed shards' histories, and in these each caller's entries are, shard by shard and in order, those
//! of its calls, without the refused one and those after it where a journal was full; that nobody else has an entry; that what they
//! emitted was sent in order but for the sends that failed, which are counted; and that the finish is the first fault of the
//! timer and then of the workers, with its cause. No lock is ever spent. It promises nothing of waiting.

mod copying;
mod finish;
mod linking;
mod opening;
mod running;
mod serving;

pub use finish::{Finish, Refused};
pub use serving::{Outcome, serve_script};
