//! The numbers that every other crate counts in: moments in microseconds, ticks in milliseconds, which of them have
//! come, the draws that jitter is computed from, and a counter of steps that contracts alone can read.
//!
//! It stands on std alone, allocates no memory and reads no clock. It promises that a `Moment` or a `Tick` is never too
//! large for the sums that are built from it, that rounding between the two is exact, and that `Steps` costs nothing at
//! run time.
#![tactic(auto)]

mod clock;
mod counter;
mod draw;
mod due;

pub use clock::{GREATEST_TICK, MOMENT_BOUND, Moment, Tick, ceil_tick, floor_tick};
pub use counter::Steps;
pub use draw::next_j;
pub use due::{has_come, sooner};
