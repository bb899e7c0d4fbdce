//! Two peers by a schedule that one number decides, and the line that sums up what they did.
//!
//! A seed decides a list of events of any length: about half of them are ticks, and each other one gives a side one of the
//! packets that the other side has sent so far, so that most are lost, and those that come are repeated and out of order.
//! [`pair_line`] plays it and writes the line. `specs/Schedule.antt` is the schedule and `specs/Line.antt` the line, as
//! definitions over the pair run. It promises that `pair_line` answers that line of that schedule, or there was no memory.

mod playing;
mod schedule;

pub use playing::pair_line;
