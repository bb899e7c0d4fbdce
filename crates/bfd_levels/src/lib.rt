//! Timers as a wheel of levels, with a bound on the steps of every call.
//!
//! `Levels` keeps the promises of `Timers` with four levels of 256 slots, an overflow list and an overdue list: the
//! further off a due tick is, the coarser its slot, and its node moves down as the clock comes near. It stands on
//! bfd_wheel, for the rings of nodes, and on bfd_lanes and bfd_num. Beyond `Timers` it promises how many steps an
//! advance takes: at most what the potential falls by, and two for each tick that the clock goes forward and five.
//! It keeps the least due tick, so that asking for it is no search. `ByCount` is the plain list for few ids, and `Levels`
//! for more.
#![tactic(auto)]

mod advance;
mod anew;
mod by_count;
mod change;
mod jump;
mod law;
mod levels;
mod place;
mod soonest;
mod tick;
mod walk;

pub use by_count::ByCount;
pub use law::call_laws;
pub use levels::Levels;
pub use place::height;
