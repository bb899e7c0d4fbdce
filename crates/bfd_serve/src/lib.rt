//! Serving: where threads meet the outside.
//!
//! [`run`] is a run from its script to the served text. A worker gives the arrivals of its link to the engine; the timer gives it ticks,
//! and orders before them. Each sends what its calls emit, and is one thread's loop, with a pass of its own. [`serve`] runs a timer and
//! workers in parallel. [`served_text`] writes the text of the closed shards' journals, and [`spelling`] spells a script
//! and an event as lines.
//!
//! Modules of the threads: `sending` (packets, and those that are lost), `calling` (a call of the engine and its sends), `working` (the
//! worker), `timing` (the timer), `ending` (why they end), `jobs` (what each worker works with), `passes` (their making and joining),
//! `threads` (all in parallel), `serving` (the timer and the workers from start to end).
//!
//! It stands on `bfd_engine`, on `bfd_edge` for links, gates and tickers, on `bfd_script` for orders and lines, and on what those stand on.
//! It promises, for every link and every interleaving with other callers: what a caller's pass gains on each shard are exactly the entries
//! of its calls, without the last ones by Full, Spent or out of memory; what they emitted was sent in order, but for the sends that failed,
//! which are counted; and each end comes by its cause. It promises nothing of waiting.
#![tactic(auto)]

mod calling;
mod ending;
mod jobs;
mod passes;
pub mod run;
mod sending;
pub mod served_text;
mod serving;
pub mod spelling;
mod threads;
mod timing;
mod working;

pub use ending::End;
pub use serving::{Limits, Served, serve};
pub use timing::timer;
pub use working::worker;
