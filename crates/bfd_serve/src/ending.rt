//! How a worker and a timer end.

/// Why a worker or a timer ended.
#[derive(Clone, Copy, Debug, PartialEq, Eq)]
pub enum End {
    /// The link has no packet left, or the ticker no tick, or the limit of ticks was reached.
    Ended,

    /// The link failed to receive.
    LinkFault,

    /// The ticker failed.
    ClockFault,

    /// The journal of this shard has this many entries, which is its limit.
    Full(u32, usize),

    /// A worker made this many turns, which is its limit.
    Turns(u64),

    /// The word of this shard's lock is 2^64 - 2: no turn is left.
    Spent(u32, u64),

    /// Out of memory.
    Memory,
}
