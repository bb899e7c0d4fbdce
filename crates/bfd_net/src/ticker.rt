//! A ticker by the machine's clock.
ghost use Rattle.std.specs.Prelude.{◌≡◌, ◌≢◌, false, None};
ghost use Rattle.bfd_edge.specs.Tickers.{after_next, IsInOrder};

use crate::clock::SinceMade;
use bfd_edge::{Next, Ticker};
use std::marker::Model;
use std::time::Clock;

/// A ticker that waits for each next millisecond of the machine's clock. It is never Ended. Contracts see it as what it reports.
#[derive(Drop)]
pub struct ClockTicker<R: Clock> {
    clock: SinceMade<R>,
    faults: u64,
    gave: u64,
}

impl<R: Clock> Model for ClockTicker<R> {
    ghost use Rattle.std.specs.Prelude.{false, None};
    ghost use Rattle.bfd_edge.specs.Tickers.{TickerObserved};

    ghost Value = { TickerObserved };

    ghost view = { λ t. record { ticks = None; faults = t.faults; gave = t.gave; over = false } };
}

impl<R: Clock> ClockTicker<R> {
    /// A ticker whose ticks count from here.
    pub fn make(rt: R) -> Self
        ensures { result ≡ record { ticks = None; faults = 0; gave = 0; over = false } }
    {
        ClockTicker {
            clock: SinceMade::now(rt),
            faults: 0,
            gave: 0,
        }
    }
}

impl<R: Clock> Ticker for ClockTicker<R> {
    ghost observed = { λ t. t };

    /// Waits for the next millisecond, and answers the milliseconds since the ticker was made. `Failed` comes where the clock
    /// can't be read.
    fn next(&mut self) -> Next
        ensures after { self.new ≡ after_next result self.old }
        ensures order { IsInOrder result self.old.ticks }
        ensures goes_on { result ≢ Next.Ended }
    {
        match self.clock.next_tick() {
            Some(tick) => {
                self.gave = self.gave.saturating_add(1);
                Next::Got(tick)
            }
            None => {
                self.faults = self.faults.saturating_add(1);
                Next::Failed
            }
        }
    }
}
