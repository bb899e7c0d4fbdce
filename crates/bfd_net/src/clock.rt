//! The machine's clock.
ghost use Rattle.std.specs.Prelude.{◌≡◌, ◌-◌, ◌%◌, ◌<◌, ◌≤◌, IfSome, MatchOption};
ghost use Rattle.std.specs.Duration.{as_nanos};
ghost use Rattle.bfd_num.specs.Numbers.{greatest_tick, moment_bound};
ghost use Rattle.bfd_net.specs.Clocks.{micros_between, millis_between, nanos_between, IsSince, IsTickSince};

use bfd_num::{Moment, Tick};
use std::thread;
use std::time::{Clock, Duration, Instant};

/// Nanoseconds in a millisecond.
const MILLISECOND: u32 = 1_000_000;

/// The microseconds from one reading of the clock to a later one: None if and only if they are no moment.
fn moment_between(made: Instant, read: Instant) -> Option<Moment>
    ensures { MatchOption result (moment_bound ≤ micros_between made read) (λ m. m ≡ micros_between made read) }
{
    let micros = read.duration_since(made).as_micros();
    Moment::new(u64::try_from(micros).ok()?)
}

/// The milliseconds from one reading of the clock to a later one: None if and only if they are no tick.
fn tick_between(made: Instant, read: Instant) -> Option<Tick>
    ensures { MatchOption result (greatest_tick < millis_between made read) (λ t. t ≡ millis_between made read) }
{
    let millis = read.duration_since(made).as_millis();
    Tick::new(u64::try_from(millis).ok()?)
}

/// How long it is from a reading of the clock to the next whole millisecond since an earlier one.
fn rest_of_millisecond(made: Instant, read: Instant) -> Duration
    ensures { as_nanos result ≡ 1000000 - nanos_between made read % 1000000 }
{
    let past = read.duration_since(made).subsec_nanos() % MILLISECOND;
    Duration::from_nanos(u64::from(MILLISECOND - past))
}

/// The machine's clock, from the moment at which this was made. Where the clock couldn't be read then, it can't be read later.
#[derive(Clone, Copy)]
pub(crate) struct SinceMade<R> {
    rt: R,
    pub(crate) made: Option<Instant>,
}

impl<R: Clock> SinceMade<R> {
    pub(crate) fn now(rt: R) -> Self {
        let made = Instant::now(&rt).ok();
        SinceMade { rt, made }
    }

    /// A reading of the clock. None where it can't be read.
    fn read(&self) -> Option<Instant> {
        Instant::now(&self.rt).ok()
    }

    /// The microseconds since then. None where the clock can't be read.
    pub(crate) fn moment(&self) -> Option<Moment>
        ensures { IfSome result (IsSince self.now.made) }
    {
        moment_between(self.made?, self.read()?)
    }

    /// Waits for the next millisecond, and answers the milliseconds since then. None where the clock can't be read.
    pub(crate) fn next_tick(&self) -> Option<Tick>
        ensures { IfSome result (IsTickSince self.now.made) }
    {
        let made = self.made?;
        thread::sleep(&self.rt, rest_of_millisecond(made, self.read()?));
        tick_between(made, self.read()?)
    }
}
