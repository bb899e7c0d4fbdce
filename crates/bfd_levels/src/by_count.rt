//! Timers in the form that suits their number.
ghost use Rattle.std.specs.Prelude.{◌≡◌, IfOk, IfSome};
ghost use Rattle.bfd_levels.specs.ByCount.{dues_of};

use crate::levels::Levels;
use bfd_lanes::Ids;
use bfd_num::Steps;
use bfd_wheel::{PlainTimers, Timers};
use std::alloc::{AllocError, Global};
use std::sync::ledger::Ledger;

/// Up to so many ids a look at each due tick costs less than a wheel, whose heads take 8 kilobytes.
const FEW: u32 = 8;

/// The plain list for few ids, and a wheel of levels for more.
#[derive(Drop)]
pub enum ByCount {
    /// At most 8 ids.
    Few(PlainTimers),
    /// More.
    Many(Levels),
}

/// A wheel with the same due ticks, where a plain list has as many ids as suit it. Fails only when out of memory.
fn wheel_for(alloc: Global, timers: &ByCount) -> Result<Option<Levels>, AllocError>
    ensures { IfOk result (λ wheel. IfSome wheel (λ levels. levels.dues ≡ dues_of timers.now)) }
{
    let ByCount::Few(plain) = timers else {
        return Ok(None);
    };
    let dues = plain.dues();
    if dues.len() < FEW as usize {
        return Ok(None);
    }
    let levels = Levels::of(alloc, dues)?;
    Ok(Some(levels))
}

/// Makes a wheel of a plain list that has as many ids as suit it. Fails only when out of memory.
fn outgrow(alloc: Global, timers: &mut ByCount) -> Result<(), AllocError>
    ensures { dues_of timers.new ≡ dues_of timers.old }
{
    match wheel_for(alloc, timers)? {
        Some(levels) => {
            *timers = ByCount::Many(levels);
            Ok(())
        }
        None => Ok(()),
    }
}

impl Timers for ByCount {
    ghost dues = { λ timers. dues_of timers };

    fn make(alloc: Global, count: u32) -> Result<Self, AllocError> {
        if count <= FEW {
            let timers = PlainTimers::make(alloc, count)?;
            return Ok(ByCount::Few(timers));
        }
        let timers = Levels::make(alloc, count)?;
        Ok(ByCount::Many(timers))
    }

    fn insert(&mut self, alloc: Global, id: u32, due: Option<u64>) -> Result<(), AllocError> {
        outgrow(alloc, self)?;
        match self {
            ByCount::Few(timers) => timers.insert(alloc, id, due),
            ByCount::Many(timers) => timers.insert(alloc, id, due),
        }
    }

    fn remove(&mut self, id: u32) {
        match self {
            ByCount::Few(timers) => timers.remove(id),
            ByCount::Many(timers) => timers.remove(id),
        }
    }

    fn set<L: Ledger>(&mut self, id: u32, due: u64, steps: &mut Steps<L>) {
        match self {
            ByCount::Few(timers) => timers.set(id, due, steps),
            ByCount::Many(timers) => timers.set(id, due, steps),
        }
    }

    fn clear<L: Ledger>(&mut self, id: u32, steps: &mut Steps<L>) {
        match self {
            ByCount::Few(timers) => timers.clear(id, steps),
            ByCount::Many(timers) => timers.clear(id, steps),
        }
    }

    fn due(&self, id: u32) -> Option<u64> {
        match self {
            ByCount::Few(timers) => timers.due(id),
            ByCount::Many(timers) => timers.due(id),
        }
    }

    fn least(&self) -> Option<u64> {
        match self {
            ByCount::Few(timers) => timers.least(),
            ByCount::Many(timers) => timers.least(),
        }
    }

    fn advance(&mut self, t: u64, out: &mut Ids) {
        match self {
            ByCount::Few(timers) => timers.advance(t, out),
            ByCount::Many(timers) => timers.advance(t, out),
        }
    }
}
