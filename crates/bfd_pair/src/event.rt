//! The two sides, what can happen to them, and what is answered.

use bfd_num::{Moment, Tick};
use bfd_rules::Cmd;
use bfd_session::Answer;

/// One of the two sides.
#[derive(Clone, Copy, Debug, PartialEq, Eq)]
pub enum Side {
    Left,
    Right,
}

/// An event of the pair.
#[derive(Clone, Copy, Debug, PartialEq, Eq)]
pub enum PairEvent {
    /// The clock ticks, for Left and then for Right. A tick below an earlier one counts as that one.
    Tick(Tick),
    /// A side is given a packet that the other side has sent, by its number there, the first being 1, at a moment in
    /// microseconds.
    Give {
        to: Side,
        moment: Moment,
        number: u64,
    },
    /// A command to a side, at a moment in microseconds.
    Order {
        side: Side,
        moment: Moment,
        cmd: Cmd,
    },
}

/// Why two configurations make no pair.
#[derive(Clone, Copy, Debug, PartialEq, Eq)]
pub enum PairFault {
    /// The roles differ, or the local address of one side isn't the remote address of the other.
    NotPeers = 1,
    /// Out of memory.
    Memory = 2,
}

/// What an event answers.
#[derive(Clone, Copy, Debug, PartialEq, Eq)]
pub enum PairAnswer {
    /// What the session answered; a tick answers Ticked. A packet that fails a test up to selection is Dropped by it.
    Did(Answer),
    /// There is no packet of the number: the other side has sent so many.
    NoPacket(u64),
}
