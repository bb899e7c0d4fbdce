//! Tickers: what ticks come from.

use bfd_num::Tick;

/// What a ticker answers when it is asked for a tick.
#[derive(Drop)]
pub enum Next {
    /// The next tick.
    Got(Tick),

    /// No tick is left.
    Ended,

    /// The ticker failed: its count of faults rose in this call.
    Failed,
}

/// Something that ticks come from, as a clock does.
///
/// It always reports its count of faults, how many ticks it gave and whether it ended. A ticker over memory also reports
/// which ticks it gave, and which are left.
pub trait Ticker {
    ghost use Rattle.std.specs.Prelude.{◌≡◌};
    ghost use Rattle.bfd_edge.specs.Tickers.{TickerObserved, after_next, IsInOrder};

    // What it reports.
    ghost observed: { Self → TickerObserved };

    /// Asks for the next tick, and may wait for it.
    ///
    /// `Got` raises the count of what was given, `Ended` is remembered and comes only where none is left, and `Failed` raises
    /// the count of faults.
    fn next(&mut self) -> Next
        ensures after { observed self.new ≡ after_next result (observed self.old) }
        ensures order { IsInOrder result (observed self.old).ticks };
}
