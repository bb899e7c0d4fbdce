//! What the lines of a script are, and the queues of its shards.
//!
//! Each line of a script is found to be an event that matches no session, with its answer, or an event of the table's sessions
//! ([`route_of`]): a packet is screened and selected here, once. [`planned`] deals the events of the sessions out to the queues of 1 to 64
//! shards, handles the others separately, and returns the table too ([`Plan`]). The table is built while the lines are cut into runs, one
//! for each worker or fewer; the runs are looked through in parallel, each in a thread of its own if one is available, and what was planned
//! of them is put one behind another: the queues as pieces ([`Queue`]), from which the events are taken one by one. With one worker no
//! thread is started.
//!
//! Modules: `routing` says what a line is, `runs` cuts the lines into runs, `plan` deals them out, `queues` puts the runs' queues one
//! behind another and returns their events, `shrinking` frees a list's memory while its elements are taken.
//!
//! It promises that a route is what the definitions say of its line (`happening`), that each shard's queue has the events of its sessions
//! and every tick, with their numbers, in the order of the script, and that what is reported separately is of all other lines, however many
//! workers there are.

mod plan;
mod queues;
mod routing;
mod runs;
mod shrinking;

pub use plan::{Plan, longest, planned};
pub use queues::Queue;
pub use routing::{Route, route_of};
pub use shrinking::next_of;
