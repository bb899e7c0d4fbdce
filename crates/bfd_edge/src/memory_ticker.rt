//! A ticker over memory.
ghost use Rattle.std.specs.Prelude.{◌≡◌, [], false};
ghost use Rattle.bfd_edge.specs.Tickers.{after_next, IsInOrder};
ghost use Rattle.bfd_edge.specs.MemoryTicker.{observed_of, next_of, ticker_after};

use crate::ticker::{Next, Ticker};
use bfd_num::Tick;
use std::marker::Model;

/// A ticker that gives the ticks of a list, one after another, and then Ended. Contracts see it as the record `HeldTicker`.
#[derive(Drop)]
pub struct MemTicker {
    ticks: Vec<Tick>,
    at: usize,
    calls: u64,
    fails: Vec<u64>,
    faults: u64,
    gave: u64,
    over: bool,
}

impl Model for MemTicker {
    ghost use Rattle.std.specs.Prelude.{take, drop, ◌≤◌, vec_len};
    ghost use Rattle.bfd_edge.specs.MemoryTicker.{HeldTicker};

    ghost Value = { HeldTicker };

    ghost view = { λ t. record {
      given = take t.at t.ticks.items;
      left = drop t.at t.ticks.items;
      calls = t.calls;
      fails = t.fails.items;
      faults = t.faults;
      gave = t.gave;
      over = t.over;
    } };

    ghost invariant = { λ t. t.at ≤ vec_len t.ticks };
}

impl MemTicker {
    /// A ticker that gives these ticks, and fails at the calls named, counted from 0.
    pub fn make(ticks: Vec<Tick>, fails: Vec<u64>) -> Self
        ensures { result ≡ record {
          given = [];
          left = ticks.items;
          calls = 0;
          fails = fails.items;
          faults = 0;
          gave = 0;
          over = false;
        } }
    {
        MemTicker {
            ticks,
            at: 0,
            calls: 0,
            fails,
            faults: 0,
            gave: 0,
            over: false,
        }
    }
}

impl Ticker for MemTicker {
    ghost observed = { observed_of };

    /// Gives the next tick of the list, or Ended where none is left, or fails where this call is one of those named.
    fn next(&mut self) -> Next
        ensures after { observed_of self.new ≡ after_next result (observed_of self.old) }
        ensures order { IsInOrder result (observed_of self.old).ticks }
        ensures answer { result ≡ next_of self.old }
        ensures state { self.new ≡ ticker_after self.old }
    {
        let call = self.calls;
        self.calls = call.saturating_add(1);
        if self.fails.contains(&call) {
            self.faults = self.faults.saturating_add(1);
            return Next::Failed;
        }
        if self.at == self.ticks.len() {
            self.over = true;
            return Next::Ended;
        }
        let tick = self.ticks[self.at];
        self.at += 1;
        self.gave = self.gave.saturating_add(1);
        Next::Got(tick)
    }
}
