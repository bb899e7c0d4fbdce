//! The clock, tick by tick.
ghost use Rattle.std.specs.Prelude.{◌≡◌, ◌≢◌, ℕ, ◌+◌, ◌-◌, ◌*◌, ◌^◌, ◌<◌, ◌≤◌, length, slice_index};
ghost use Rattle.bfd_lanes.specs.Held.{room_of};
ghost use Rattle.bfd_lanes.specs.Places.{never};
ghost use Rattle.bfd_wheel.specs.Taken.{Took, waiting};
ghost use Rattle.bfd_levels.specs.Lists.{reach, at_tick, loads};
ghost use Rattle.bfd_levels.specs.Rings.{IsPlaced};

use crate::place::{OVERDUE, reached};
use crate::walk::walk;
use bfd_lanes::Ids;
use bfd_num::Steps;
use bfd_wheel::Node;
use std::sync::ledger::Ledger;

/// The clock reaches `tick`, the one after `before`: what stands on the lists that it reaches is taken if it has come
/// by `t`, and else moved down.
fn turn<L: Ledger>(
    nodes: &mut [Node],
    dues: &mut [u64],
    before: u64,
    tick: u64,
    t: u64,
    out: &mut Ids,
    steps: &mut Steps<L>,
)
    requires placed { IsPlaced (length dues.old) 1026 (at_tick (length dues.old) before dues.old) dues.old nodes.old }
    requires next { tick ≡ before + 1 }
    requires by { tick ≤ t }
    requires t { t < never }
    requires room { waiting t dues.old ≤ out.old.spare }
    ensures placed { IsPlaced (length dues.old) 1026 (at_tick (length dues.old) tick dues.new) dues.new nodes.new }
    ensures took { Took t dues.old dues.new out.old.items out.new.items }
    ensures room { room_of out.new ≡ room_of out.old }
    ensures spare { waiting t dues.new ≤ out.new.spare }
    ensures cost { steps.new + loads (length dues.old) (at_tick (length dues.old) tick dues.new) dues.new
        ≤ steps.old + reach tick + loads (length dues.old) (at_tick (length dues.old) before dues.old) dues.old }
{
    for level in 0..reached(tick) {
        walk(nodes, dues, before, tick, level, t, out, steps);
    }
}

/// Takes what has come by `t`, which is at most `now`: all of it is on the overdue list.
pub(crate) fn overdue<L: Ledger>(
    nodes: &mut [Node],
    dues: &mut [u64],
    now: u64,
    t: u64,
    out: &mut Ids,
    steps: &mut Steps<L>,
)
    requires placed { IsPlaced (length dues.old) 1026 (at_tick (length dues.old) now dues.old) dues.old nodes.old }
    requires back { t ≤ now }
    requires t { t < never }
    requires room { waiting t dues.old ≤ out.old.spare }
    ensures placed { IsPlaced (length dues.old) 1026 (at_tick (length dues.old) now dues.new) dues.new nodes.new }
    ensures took { Took t dues.old dues.new out.old.items out.new.items }
    ensures left { (j : ℕ) → j < length dues.old → slice_index dues.new j ≢ never → t < slice_index dues.new j }
    ensures room { room_of out.new ≡ room_of out.old }
    ensures cost { steps.new + loads (length dues.old) (at_tick (length dues.old) now dues.new) dues.new
        ≤ steps.old + 1 + loads (length dues.old) (at_tick (length dues.old) now dues.old) dues.old }
{
    walk(nodes, dues, now, now, OVERDUE, t, out, steps);
}

/// The clock goes forward from `now` to `t`, less than 65,536 ticks, and what has come is taken.
pub(crate) fn forward<L: Ledger>(
    nodes: &mut [Node],
    dues: &mut [u64],
    now: u64,
    t: u64,
    out: &mut Ids,
    steps: &mut Steps<L>,
)
    requires placed { IsPlaced (length dues.old) 1026 (at_tick (length dues.old) now dues.old) dues.old nodes.old }
    requires later { now ≤ t }
    requires near { t < now + 65536 }
    requires t { t < 2 ^ 60 }
    requires room { waiting t dues.old ≤ out.old.spare }
    ensures placed { IsPlaced (length dues.old) 1026 (at_tick (length dues.old) t dues.new) dues.new nodes.new }
    ensures took { Took t dues.old dues.new out.old.items out.new.items }
    ensures left { (j : ℕ) → j < length dues.old → slice_index dues.new j ≢ never → t < slice_index dues.new j }
    ensures room { room_of out.new ≡ room_of out.old }
    ensures cost { steps.new + loads (length dues.old) (at_tick (length dues.old) t dues.new) dues.new
        ≤ steps.old + (2 * (t - now) + 4) + loads (length dues.old) (at_tick (length dues.old) now dues.old) dues.old }
{
    for before in now..t {
        turn(nodes, dues, before, before + 1, t, out, steps);
    }
    overdue(nodes, dues, t, t, out, steps);
}
