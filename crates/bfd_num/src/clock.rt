//! Moments, ticks and the rounding between them.
ghost use Rattle.std.specs.Prelude.{◌≡◌, ◌<◌, ◌≤◌, IfSome, MatchOption};
ghost use Rattle.bfd_num.specs.Numbers.{moment_bound, greatest_tick, IsLeastTickFrom};
ghost use Rattle.bfd_num.specs.Numbers as numbers;

use std::marker::Model;

/// Every moment is below this: 2^60 microseconds, some 36,000 years.
pub const MOMENT_BOUND: u64 = 1 << 60;

/// The greatest tick, in milliseconds: that of the greatest moment.
pub const GREATEST_TICK: u64 = 1_152_921_504_606_846;

/// A moment in microseconds since the start, below 2^60.
#[derive(Clone, Copy, PartialEq, Eq, PartialOrd, Ord, Debug)]
pub struct Moment {
    us: u64,
}

impl Model for Moment {
    ghost use Rattle.std.specs.Prelude.{ℕ, ◌<◌};
    ghost use Rattle.bfd_num.specs.Numbers.{moment_bound};

    ghost Value = { ℕ };

    ghost view = { λ m. m.us };

    ghost invariant = { λ m. m.us < moment_bound };

    ghost inverse = { λ n. record { us = n } };
}

impl Moment {
    /// The moment of this many microseconds: None if and only if they are 2^60 or more.
    pub fn new(us: u64) -> Option<Moment>
        ensures value { MatchOption result (moment_bound ≤ us) (λ m. m ≡ us) }
        ensures fits { IfSome result (λ m. m < moment_bound) }
    {
        if us < MOMENT_BOUND {
            Some(Moment { us })
        } else {
            None
        }
    }

    /// Its microseconds.
    pub fn get(&self) -> u64
        ensures value { result ≡ self.now }
        ensures fits { self.now < moment_bound }
    {
        self.us
    }
}

/// A tick, one millisecond of the clock that drives the timers: at most `GREATEST_TICK`.
#[derive(Clone, Copy, PartialEq, Eq, PartialOrd, Ord, Debug)]
pub struct Tick {
    ms: u64,
}

impl Model for Tick {
    ghost use Rattle.std.specs.Prelude.{ℕ, ◌≤◌};
    ghost use Rattle.bfd_num.specs.Numbers.{greatest_tick};

    ghost Value = { ℕ };

    ghost view = { λ t. t.ms };

    ghost invariant = { λ t. t.ms ≤ greatest_tick };

    ghost inverse = { λ n. record { ms = n } };
}

impl Tick {
    /// The tick of this number: None if and only if it is above `GREATEST_TICK`.
    pub fn new(t: u64) -> Option<Tick>
        ensures value { MatchOption result (greatest_tick < t) (λ tick. tick ≡ t) }
        ensures fits { IfSome result (λ tick. tick ≤ greatest_tick) }
    {
        if t <= GREATEST_TICK {
            Some(Tick { ms: t })
        } else {
            None
        }
    }

    /// Its number.
    pub fn get(&self) -> u64
        ensures value { result ≡ self.now }
        ensures fits { self.now ≤ greatest_tick }
    {
        self.ms
    }
}

/// The tick that is running at the moment of `m` microseconds: the quotient by 1,000.
#[tactic(auto, unfolding(crate::specs::Numbers::floor_tick))]
pub fn floor_tick(m: u64) -> u64
    ensures { result ≡ numbers.floor_tick m }
{
    m / 1000
}

/// The least tick whose moment is at least `m` microseconds.
#[tactic(auto, unfolding(crate::specs::Numbers::ceil_tick))]
pub fn ceil_tick(m: u64) -> u64
    ensures value { result ≡ numbers.ceil_tick m }
    ensures least { IsLeastTickFrom m result }
{
    m.div_ceil(1000)
}
