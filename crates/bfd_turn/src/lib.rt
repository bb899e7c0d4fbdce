//! A lock round a value that keeps notes, and the right to one turn at a time.
//!
//! A `TurnLock` holds a value whose notes only grow: a turn adds at most one, which names its caller.
//! The lock is one word, which is twice the turns given back and one more while a turn is held, and one slot,
//! where the value lies between turns. A caller asks for turns with a `Pass` of its own, which has seen a
//! beginning of the one history of notes.
//!
//! It stands on `atomic_table`, whose steps keep a rule over the word, the slot and what all passes know (specs/Rule.antt).
//! It promises what a turn lends, what `done` gives back, why a turn is refused, and what `join` and `close` show of the history.
//! It promises nothing of waiting: not that a turn is ever had, nor in what order callers get one.
#![tactic(auto)]

mod board;
mod fault;
mod lock;
mod pass;
mod plays;
mod recorded;
mod turn;
mod view;

pub use fault::{Spent, TryFault};
pub use lock::TurnLock;
pub use pass::Pass;
pub use recorded::Recorded;
pub use turn::Turn;
pub use view::Known;
